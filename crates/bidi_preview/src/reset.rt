//! The reset of white space (UAX #9, L1).
ghost use Rattle.std.specs.Prelude.{◌≡◌, ℕ, if◌then◌else◌, length, map, option_map};
ghost use Rattle.bidi_order.specs.Reset.{reset_kind, reset_levels};
ghost use Rattle.bidi_preview.specs.ResetSteps.{reset_state};

use bidi_class::Class;

/// L1: separators, and white space and isolate controls before one or at the line's end, get the level of the base. The
/// line is read from its end on.
pub(crate) fn reset_levels(base: u8, classes: &[Class], levels: &mut [Option<u8>])
    requires { length classes.now ≡ length levels.old }
    ensures { levels.new ≡ reset_levels base (map reset_kind classes.now) levels.old }
{
    let mut trailing = true;
    let mut index = levels.len();
    while index > 0 {
        index -= 1;
        let state = reset_state(classes[index], trailing);
        levels[index] = reset_level(base, state.0, levels[index]);
        trailing = state.1;
    }
}

/// Whether a character is reset, and whether those before it are trailing, by whether those after it are.
fn reset_state(class: Class, trailing: bool) -> (bool, bool)
    ensures { result ≡ reset_state (reset_kind class) trailing }
{
    match class {
        Class::S => (true, true),
        Class::WS | Class::LRI | Class::RLI | Class::FSI | Class::PDI => (trailing, trailing),
        Class::LRE | Class::RLE | Class::LRO | Class::RLO | Class::PDF | Class::BN => (
            false, trailing,
        ),
        _ => (false, false),
    }
}

fn reset_level(base: u8, resets: bool, level: Option<u8>) -> Option<u8>
    ensures { result ≡ option_map (λ (n : ℕ). if resets then base else n) level }
{
    match level {
        Some(_) if resets => Some(base),
        _ => level,
    }
}
