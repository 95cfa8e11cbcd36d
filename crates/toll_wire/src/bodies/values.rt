//! Values of the office: texts, words and numbers.
ghost use Rattle.std.specs.Prelude.{◌≡◌, refl};
ghost use Rattle.serde_json.specs.Data.{boolean, string};
ghost use Rattle.toll_base.specs.States.{word_of_state};
ghost use Rattle.toll_base.specs.ValueWords.{disposition_word, use_word};
ghost use Rattle.toll_wire.specs.Exact.{whole_exact};
ghost use Rattle.toll_wire.specs.ReplyBodies.{count_data, whole_data};

use crate::bodies::json_value::JsonValue;
use serde::Serializer;
use std::str::from_utf8;
use toll_base::{Bounded, Disposition, Measure, Name, Role, State, Value};
use toll_work::StateWord;

impl JsonValue for &str {
    ghost as_data = { λ text. string text.now };

    ghost exact = { λ _. refl };

    fn send<S: Serializer>(&self, out: &mut S) -> Result<(), S::Error> {
        out.str(self)
    }
}

impl JsonValue for bool {
    ghost as_data = { boolean };

    ghost exact = { λ _. refl };

    fn send<S: Serializer>(&self, out: &mut S) -> Result<(), S::Error> {
        out.bool(*self)
    }
}

impl JsonValue for u64 {
    ghost as_data = { count_data };

    ghost exact = { λ _. refl };

    fn send<S: Serializer>(&self, out: &mut S) -> Result<(), S::Error> {
        out.u64(*self)
    }
}

impl<const LEAST: u64, const MOST: u64> JsonValue for Bounded<LEAST, MOST> {
    ghost as_data = { count_data };

    ghost exact = { λ _. refl };

    fn send<S: Serializer>(&self, out: &mut S) -> Result<(), S::Error> {
        out.u64(self.get())
    }
}

impl JsonValue for Value {
    ghost as_data = { whole_data };

    ghost exact = { whole_exact };

    fn send<S: Serializer>(&self, out: &mut S) -> Result<(), S::Error> {
        match u64::try_from(self.get()) {
            Ok(value) => out.u64(value),
            Err(_) => out.i64(self.get()),
        }
    }
}

impl JsonValue for Name {
    ghost as_data = { string };

    ghost exact = { λ _. refl };

    fn send<S: Serializer>(&self, out: &mut S) -> Result<(), S::Error> {
        out.str(name_text(self))
    }
}

impl JsonValue for Measure {
    ghost as_data = { string };

    ghost exact = { λ _. refl };

    fn send<S: Serializer>(&self, out: &mut S) -> Result<(), S::Error> {
        out.str(measure_text(self))
    }
}

impl JsonValue for Disposition {
    ghost as_data = { λ disposition. string (disposition_word disposition) };

    ghost exact = { λ _. refl };

    fn send<S: Serializer>(&self, out: &mut S) -> Result<(), S::Error> {
        out.str(self.word())
    }
}

impl JsonValue for Role {
    ghost as_data = { λ role. string (use_word role) };

    ghost exact = { λ _. refl };

    fn send<S: Serializer>(&self, out: &mut S) -> Result<(), S::Error> {
        out.str(self.word())
    }
}

impl JsonValue for State {
    ghost as_data = { λ state. string (word_of_state state) };

    ghost exact = { λ _. refl };

    fn send<S: Serializer>(&self, out: &mut S) -> Result<(), S::Error> {
        out.str(self.word())
    }
}

/// The name's text.
pub(crate) fn name_text(name: &Name) -> &str
    ensures { result.now ≡ name.now }
{
    from_utf8(name.as_bytes()).unwrap()
}

fn measure_text(measure: &Measure) -> &str
    ensures { result.now ≡ measure.now }
{
    from_utf8(measure.as_bytes()).unwrap()
}
