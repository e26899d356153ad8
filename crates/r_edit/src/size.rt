//! Whether a lambda is small enough after a change.

ghost use Rattle.std.specs.Prelude.{◌≡◌, ◌<◌, ◌^◌};
ghost use Rattle.r_edit.specs.Size.{may_change_size};

use base::MOST_GROWN_VALUES;

/// Whether a lambda of so many values to which a change adds so many, and from which it takes so
/// many away, does not become larger, or has at most `MOST_GROWN_VALUES` values afterwards.
pub fn may_change_size(values: u64, added: u128, gone: u128) -> bool
    requires added { added < 2 ^ 127 }
    requires gone { gone < 2 ^ 127 }
    ensures { result ≡ may_change_size values added gone }
{
    added <= gone || u128::from(values) + added <= MOST_GROWN_VALUES + gone
}
