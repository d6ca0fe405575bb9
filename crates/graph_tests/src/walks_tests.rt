ghost use Rattle.std.specs.Prelude.{◌≡◌, ◌<◌};

use graph_words::Steps;
use std::marker::Brand;
use std::sync::ledger::{Blank, Ledger};

// A counter takes no bytes, so what it counted shows in contracts alone.
fn wants_two<L: Ledger>(_steps: &Steps<L>)
    requires { _steps.now ≡ 2 }
{}

fn tick_twice<L: Ledger>(blank: Blank)
    requires name { blank.name ≡ L.name }
    requires parts { blank.parts ≡ L.parts }
    requires some { 0 < blank.parts }
{
    let mut steps = Steps::<L>::new(blank);
    steps.tick();
    steps.tick();
    wants_two(&steps);
}

#[test]
fn ticks_are_counted() {
    tick_twice::<Brand>(Blank::new(1));
}
