// How near the nine weights of a pair are to the exact ones: specs/Near.antt. No code stands here.

#![tactic(auto)]
