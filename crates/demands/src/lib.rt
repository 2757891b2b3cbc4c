// The three demands, as statements over the definitions: specs/Demands.antt is the file to open first. No code stands here.

#![tactic(auto)]
