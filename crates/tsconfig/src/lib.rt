// A config: its definitions stand in specs/.
#![tactic(auto)]
