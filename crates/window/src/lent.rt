// The break of document 01, on a lent window.
ghost use Rattle.std.specs.Prelude.{◌≡◌};
ghost use Rattle.window.specs.Windows.{shut};

use crate::Window;

// The Rust's break_060_pipeline: the rule by value, stored in place.
pub fn break_060_pipeline(w: &mut Window)
    ensures { w.new ≡ shut }
{
    *w = Window::shut();
}

// The same for a caller with no lent window.
// Stays by value: `promises/specs/ByHand.antt` speaks of it.
pub fn break_in_place(w: Window) -> Window
    ensures { result ≡ shut }
{
    let mut v = w;
    break_060_pipeline(&mut v);
    v
}
