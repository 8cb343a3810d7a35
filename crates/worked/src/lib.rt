// The worked set: small requests whose answers are known, computed as one theorem, in specs/. There is nothing here to run.
#![tactic(auto)]
