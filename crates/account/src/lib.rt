// What it is for any walker to follow the rules of a format. There is no code here: the definitions stand in specs/.
#![tactic(auto)]
