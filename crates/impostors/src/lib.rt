// Wrong answers, each refuted by a theorem about the contract that it breaks. There is no code here.
#![tactic(auto)]
