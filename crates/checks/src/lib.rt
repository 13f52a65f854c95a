// What the test of a record asks, as definitions, and the laws that all together are "Sound state": specs only.
#![tactic(auto)]
