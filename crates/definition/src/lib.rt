// What a stream of orders means: specs/ has the definition, proofs/ its laws. There is no code here: `rle` decodes.
#![tactic(auto)]
