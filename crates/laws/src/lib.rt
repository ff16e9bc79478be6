// Laws of lists, bounded quantifiers, loops and bytes as numbers. It knows no mesh and has no code: everything is in specs/.
#![tactic(auto)]
