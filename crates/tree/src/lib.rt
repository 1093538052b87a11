// What the commands mean: laws about document 01's definitions, with no program in them. The laws stand in proofs/, what they
// speak of in specs/.
#![tactic(auto)]
