// What follows from the rules of the model, once for all crates that cite it. The laws are in specs/.
#![tactic(auto)]
