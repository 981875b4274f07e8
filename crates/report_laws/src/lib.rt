// Document 01, "Stored lines": theorems on reports. The statements are in specs/, their proofs in
// proofs/. No code of its own: they speak of `line_report::report_input` and
// `line_report::report_end`, by the definitions that their contracts name.
#![tactic(auto)]
