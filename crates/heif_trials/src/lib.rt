// The trial panels, computed from the definitions, and the wrong programs that the promises rule out.

#![tactic(auto)]
