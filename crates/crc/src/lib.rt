// CRC-32, as zip and PNG have it.
#![tactic(auto)]

ghost use Rattle.std.specs.Prelude.{◌≡◌};
ghost use Rattle.crc.specs.Crc.{crc_bit, crc_byte, crc32};

fn crc_bit(c: u32) -> u32
    ensures { result ≡ crc_bit c }
{
    let half = c / 2;
    if c % 2 == 0 { half } else { half ^ 0xEDB88320 }
}

fn crc_half(c: u32) -> u32
    ensures { result ≡ crc_bit (crc_bit (crc_bit (crc_bit c))) }
{
    crc_bit(crc_bit(crc_bit(crc_bit(c))))
}

fn crc_byte(c: u32, byte: u8) -> u32
    ensures { result ≡ crc_byte c byte }
{
    crc_half(crc_half(c ^ u32::from(byte)))
}

// The checksum of some bytes.
pub fn crc32(bytes: &[u8]) -> u32
    ensures { result ≡ crc32 bytes.now }
{
    let mut c = 0xFFFFFFFF;
    for byte in bytes {
        c = crc_byte(c, *byte);
    }
    c ^ 0xFFFFFFFF
}
