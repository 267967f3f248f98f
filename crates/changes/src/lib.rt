// Claims about which earlier answers the change requests 4, 6 and 12 altered. It has no code.
#![tactic(auto)]
