// Lists of band calls: what is claimed of every one of them, demand 3, in specs/BandLists.antt. No code stands here.

#![tactic(auto)]
