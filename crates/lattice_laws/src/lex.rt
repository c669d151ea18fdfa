//! Values under keys, of which the greater key wins.

ghost use Rattle.std.specs.Prelude.{◌≡◌, ◌↔◌, Some, None, IfNone, IfSome, IsSome};
ghost use Rattle.std.specs.Borrow.{MutBor};
ghost use Rattle.std.specs.Fn.{FnOnceReturnsAtMut};
ghost use Rattle.std.specs.Option.{option_map};
ghost use Rattle.lattice_laws.specs.Lex.{ChangesHeld};

use crate::join::Join;
use held_keys::Held;
use std::alloc::{AllocError, Global};
use std::cmp::Ordering;
use std::marker::Model;

/// Nothing, or a value under a key: of two the greater key wins, and equal keys join their values.
#[derive(Debug, Drop)]
pub struct LexOf<S: Held, J: Join> {
    held: Option<(S, J)>,
}

impl<S: Held, J: Join> Model for LexOf<S, J> {
    ghost use Rattle.std.specs.Prelude.{Option};
    ghost use Rattle.lattice_laws.specs.Lex.{HoldsOnly};

    ghost Value = { Option (S × J) };

    ghost view = { λ l. l.held };

    ghost invariant = { λ l. HoldsOnly J.admitted l.held };
}

impl<S: Held, J: Join> LexOf<S, J> {
    /// Holds nothing, which is the bottom.
    pub fn nothing() -> Self
        ensures { result ≡ None }
    {
        LexOf { held: None }
    }

    /// Holds a value under a key.
    pub fn of(key: S, value: J) -> Self
        ensures { result ≡ Some (key, value) }
    {
        // The answer is of no use: the call says that the value is one of its type.
        let _ = value.is_bottom();
        LexOf {
            held: Some((key, value)),
        }
    }

    /// Changes the value in place, and answers what the change answers. Where nothing is held it
    /// answers `None`.
    pub fn change<R, F: FnOnce(&mut J) -> R>(&mut self, change: F) -> Option<R>
        requires { (value : MutBor J)
            → option_map (λ p. p.1) self.old ≡ Some value.now → F.pre change value }
        ensures found { IsSome result ↔ IsSome self.old }
        ensures changed { IfSome result
            (ChangesHeld (FnOnceReturnsAtMut F.FnOnce change) self.old self.new) }
        ensures absent { IfNone result (self.new ≡ self.old) }
    {
        let (_, value) = self.held.as_mut()?;
        let answer = change(value);
        // So it is of what the change left.
        let _ = value.is_bottom();
        Some(answer)
    }

    /// The key and the value that are held.
    pub fn held(&self) -> Option<&(S, J)>
        ensures { option_map (λ p. p.now) result ≡ self.now }
    {
        self.held.as_ref()
    }
}

impl<S: Held, J: Join> Join for LexOf<S, J> {
    ghost use Rattle.lattice_laws.specs.Lex.{HoldsOnly, LexOrder, lex_order};

    ghost admitted = { HoldsOnly J.admitted };

    ghost order = { LexOrder S.cmp J.order };

    ghost bottom = { None };

    ghost laws = { lex_order S.total J.laws };

    fn joined(&self, alloc: Global, other: &Self) -> Result<Self, AllocError> {
        match (&self.held, &other.held) {
            (None, _) => other.copied(alloc),
            (_, None) => self.copied(alloc),
            (Some((key, value)), Some((other_key, other_value))) => match key.cmp(other_key) {
                Ordering::Less => other.copied(alloc),
                Ordering::Greater => self.copied(alloc),
                Ordering::Equal => {
                    let key = key.copied(alloc)?;
                    let value = value.joined(alloc, other_value)?;
                    Ok(LexOf {
                        held: Some((key, value)),
                    })
                }
            },
        }
    }

    fn below(&self, other: &Self) -> bool {
        match (&self.held, &other.held) {
            (None, _) => true,
            (_, None) => false,
            (Some((key, value)), Some((other_key, other_value))) => match key.cmp(other_key) {
                Ordering::Less => true,
                Ordering::Greater => false,
                Ordering::Equal => value.below(other_value),
            },
        }
    }

    fn is_bottom(&self) -> bool {
        self.held.is_none()
    }

    fn copied(&self, alloc: Global) -> Result<Self, AllocError> {
        match &self.held {
            None => Ok(LexOf { held: None }),
            Some((key, value)) => {
                let key = key.copied(alloc)?;
                let value = value.copied(alloc)?;
                Ok(LexOf {
                    held: Some((key, value)),
                })
            }
        }
    }

    fn join_in(&mut self, alloc: Global, other: Self) -> Result<(), AllocError> {
        let LexOf { held } = other;
        match (&mut self.held, held) {
            (_, None) => Ok(()),
            (None, Some(theirs)) => {
                self.held = Some(theirs);
                Ok(())
            }
            (Some((key, value)), Some((other_key, other_value))) => match (*key).cmp(&other_key) {
                Ordering::Less => {
                    self.held = Some((other_key, other_value));
                    Ok(())
                }
                Ordering::Greater => Ok(()),
                Ordering::Equal => value.join_in(alloc, other_value),
            },
        }
    }
}
