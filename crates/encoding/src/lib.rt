// Which stream a picture is written as: specs/ has the rule, proofs/ its laws. There is no code here: `encode` writes streams.
#![tactic(auto)]
