//! Values in places of their own. What is rare in a type that is moved often stands in one, so that the type stays small.

ghost use Rattle.std.specs.Prelude.{◌≡◌, Some, None, IfOk};
ghost use Rattle.std.specs.Option.{option_copied};

use cg_base::NoMemory;
use std::alloc::Global;
use std::marker::Model;

/// A value in a place of its own. Clauses see the value.
#[derive(Drop)]
pub struct Boxed<T> {
    inner: Box<T>,
}

impl<T> Model for Boxed<T> {
    ghost Value = { T };

    ghost coded = { T.code };

    ghost view = { λ b. b.inner.value };
}

impl<T> Boxed<T> {
    pub fn new(alloc: Global, value: T) -> Result<Boxed<T>, NoMemory>
    where
        T: Drop,
        ensures { IfOk result (λ boxed. boxed ≡ value) }
    {
        let inner = Box::new(alloc, value)?;
        Ok(Boxed { inner })
    }

    pub fn get(&self) -> &T
        ensures { result.now ≡ self.now }
    {
        &self.inner
    }
}

impl<T: PartialEq> PartialEq for Boxed<T> {
    ghost eq = { T.eq };

    ghost laws = { T.laws };

    fn eq(&self, other: &Boxed<T>) -> bool {
        self.get().eq(other.get())
    }
}

impl<T: Eq> Eq for Boxed<T> {
    ghost laws = { T.Eq.laws };
}

/// A value in a place of its own, or none, which takes no memory. Clauses see the value or none.
#[derive(Drop)]
pub struct BoxedOption<T> {
    inner: Option<Box<T>>,
}

impl<T> Model for BoxedOption<T> {
    ghost use Rattle.std.specs.Prelude.{Option};
    ghost use Rattle.std.specs.Coded.{coded_option};
    ghost use Rattle.std.specs.Option.{option_map};

    ghost Value = { Option T };

    ghost coded = { coded_option T.code };

    ghost view = { λ o. option_map (λ b. b.value) o.inner };
}

impl<T> BoxedOption<T> {
    pub fn none() -> BoxedOption<T>
        ensures { result ≡ None }
    {
        BoxedOption { inner: None }
    }

    pub fn some(alloc: Global, value: T) -> Result<BoxedOption<T>, NoMemory>
    where
        T: Drop,
        ensures { IfOk result (λ boxed. boxed ≡ Some value) }
    {
        let inner = Box::new(alloc, value)?;
        Ok(BoxedOption { inner: Some(inner) })
    }

    pub fn get(&self) -> Option<&T>
        ensures { option_copied result ≡ self.now }
    {
        match &self.inner {
            Some(value) => Some(value),
            None => None,
        }
    }
}

impl<T: PartialEq> PartialEq for BoxedOption<T> {
    ghost use Rattle.std.specs.Option.{option_eq};
    ghost use Rattle.cg_action.specs.OptionLaws.{options_per};

    ghost eq = { option_eq T.eq };

    ghost laws = { options_per T.laws };

    fn eq(&self, other: &BoxedOption<T>) -> bool {
        self.get() == other.get()
    }
}

impl<T: Eq> Eq for BoxedOption<T> {
    ghost use Rattle.std.specs.Cmp.Lexicographic.{options_equiv};

    ghost laws = { options_equiv T.Eq.laws };
}
