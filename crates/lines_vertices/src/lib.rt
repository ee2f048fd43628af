// Laws of the mesh's definitions: which faces a cell names, how many vertices a face has, and how
// many vertices a polygon has. They stand in proofs/.
#![tactic(auto)]
