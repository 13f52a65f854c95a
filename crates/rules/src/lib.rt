// The rules of the kernel: definitions and theorems only (see specs/).
#![tactic(auto)]
