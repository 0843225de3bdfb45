// The usage line.
ghost use Rattle.std.specs.Prelude.{◌≡◌};
ghost use Rattle.answer_meaning.specs.Text.{usage_text};

/// The usage line.
#[tactic(auto, unfolding(answer_meaning::specs::Text::usage_text))]
pub fn usage_line() -> &'static [u8]
    ensures { result.now ≡ usage_text }
{
    b"usage: plex run E S [--workers N] [--jobs N] [--cert F] | plex single E S [--jobs N] | plex analyse E | plex certify E | plex list E | plex load N | plex timed E S T [--workers N] [--jobs N] | plex change E S E2 K [--workers N] [--jobs N] | plex trace E S Q [--jobs N]\n"
}
