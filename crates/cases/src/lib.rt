// The marked cases (docs/REQUIREMENTS.md R14), proved by computing the definitions: specs/Laws/Marked.antt. No code.

#![tactic(auto)]
