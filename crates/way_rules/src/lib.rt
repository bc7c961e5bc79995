// The local rule of ways home, in specs, and the theorem that they are all that keeps it. There is no code here.
#![tactic(auto)]
