// What a seat can and cannot change: theorems about `seat`, `event_run` and `print_file`; no code.
#![tactic(auto)]
