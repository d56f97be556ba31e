// A frame lies whole in a granted buffer, stays there while others come, and is shown: specs/, proved in proofs/. No code.

#![tactic(auto)]
