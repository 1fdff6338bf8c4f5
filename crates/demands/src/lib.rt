// The three demands, progress and the whole night, as theorems over the definitions that the engine's contracts equal. Each statement
// stands in a file of specs/, its proof in the file of that name in proofs/; Waits and Table have words that the statement of demand 1 uses.
#![tactic(auto)]
