// The rules of the format: what a header and a whole source give. There is no code here: the definitions stand in specs/.
#![tactic(auto)]
