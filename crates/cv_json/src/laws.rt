//! Laws of writing and reading, over plain values and plain JSON.
ghost use Rattle.std.specs.Prelude.{◌≡◌, ◌<◌, ◌^◌, ℕ, Some, Ok, false};
ghost use Rattle.cv_json.specs.Json.{json_of};
ghost use Rattle.cv_json.specs.Ranges.{IsInRange};
ghost use Rattle.cv_json.specs.Reads.{read};
ghost use Rattle.cv_json.specs.Timestamps.{ts_text, read_ts};
ghost use Rattle.cv_values.specs.Sizes.{checked};
ghost use Rattle.cv_values.specs.Value.{Value as Plain};
ghost use Rattle.serde_json.specs.Data.{Data};

/// Reading the tree of a value gives the value, if `check_value` accepts it. A plain value may hold
/// any numbers, so the law asks that they be those of Rust's types. The clause `reads_back` of
/// [`to_json`](crate::to_json) says the same of each Rust value, without that premise.
pub fn what_is_written_is_read()
    ensures { (v : Plain) → checked false v ≡ Ok tt → IsInRange v → read (json_of v) ≡ Ok v }
{}

/// What is read is a value that `check_value` accepts.
pub fn what_is_read_is_checked()
    ensures { (d : Data) (v : Plain) → read d ≡ Ok v → checked false v ≡ Ok tt }
{}

/// Reading the text of a timestamp gives the timestamp.
pub fn timestamps_are_read()
    ensures { (ts : ℕ) → ts < 2 ^ 64 → read_ts (ts_text ts) ≡ Some ts }
{}
