// Lists of the desk's calls: what is claimed of every one of them, in specs/DeskLists.antt and specs/Isolation.antt. No code stands here.

#![tactic(auto)]
