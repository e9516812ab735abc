// Loading configs: its definitions stand in specs/.
#![tactic(auto)]
