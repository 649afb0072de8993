//! The levels of trees.
ghost use Rattle.std.specs.Prelude.{◌≡◌, ◌∷◌, [], ◌++◌, ◌+◌, ◌-◌, ◌<◌, ◌≤◌, take, length, IfOk, OnOk};
ghost use Rattle.asl_syntax.specs.Levels.{firsts_of};
ghost use Rattle.asl_syntax.specs.Grow as spec;

use std::alloc::{AllocError, Global};
use std::marker::Model;
use std::mem::replace;

/// The most levels that take no memory.
const FEW: usize = 5;

/// Where the first tokens are.
#[derive(Drop)]
enum Firsts {
    /// In the levels themselves: the first of these, so many.
    Few {
        count: u8,
        firsts: [u32; FEW],
        alloc: Global,
    },
    /// In a vector of their own.
    Many(Box<Vec<u32>>),
}

/// For each level of some trees, the lowest first, the number of the first token of its leftmost node. They are 24 bytes, and
/// at most 5 levels take no memory beside these.
pub struct Levels {
    firsts: Firsts,
}

// By hand, so that an owner lets go of it by one call (docs/DECISIONS.md).
impl Drop for Levels {
    fn drop(self) {
        let Levels { firsts: _ } = self;
    }
}

impl Model for Levels {
    ghost use Rattle.std.specs.Prelude.{List, ℕ};
    ghost use Rattle.asl_syntax.specs.Levels.{firsts_of};

    ghost Value = { List ℕ };

    ghost view = { λ levels. firsts_of levels.firsts };
}

// The first so many numbers, or all where there are no more.
fn front(firsts: &[u32], count: usize) -> &[u32]
    ensures { result.now ≡ take count firsts.now }
{
    if count < firsts.len() {
        firsts.split_at(count).0
    } else {
        firsts
    }
}

// Few numbers, and others behind them.
fn few(alloc: Global, front: &[u32], back: &[u32]) -> Firsts
    requires { length front.now + length back.now ≤ 5 }
    ensures { firsts_of result ≡ front.now ++ back.now }
{
    let mut firsts = [0; FEW];
    let (own, rest) = firsts.split_at_mut(front.len());
    own.copy_from_slice(front);
    rest.split_at_mut(back.len()).0.copy_from_slice(back);
    Firsts::Few {
        firsts,
        count: (front.len() + back.len()) as u8,
        alloc,
    }
}

// The first so many numbers, and one behind them.
#[inline(always)]
fn with(mut firsts: [u32; FEW], count: usize, first: u32) -> [u32; FEW]
    requires { count < 5 }
    ensures { take (count + 1) result ≡ take count firsts ++ first ∷ [] }
{
    firsts[count] = first;
    firsts
}

// The first so many numbers, with others in place of the last of them.
fn ended(mut firsts: [u32; FEW], count: usize, others: &[u32]) -> [u32; FEW]
    requires within { length others.now ≤ count }
    requires few { count ≤ 5 }
    ensures { take count result ≡ take (count - length others.now) firsts ++ others.now }
{
    let (_, last) = firsts.split_at_mut(count - others.len());
    last.split_at_mut(others.len()).0.copy_from_slice(others);
    firsts
}

// Numbers, and others behind them.
fn both(alloc: Global, front: &[u32], back: &[u32]) -> Result<Levels, AllocError>
    ensures { IfOk result (λ levels. levels ≡ front.now ++ back.now) }
{
    if back.len() <= FEW && front.len() <= FEW - back.len() {
        return Ok(Levels {
            firsts: few(alloc, front, back),
        });
    }
    let mut firsts = Vec::new(alloc);
    firsts.extend_from_slice(front)?;
    firsts.extend_from_slice(back)?;
    Ok(Levels {
        firsts: Firsts::Many(Box::new(alloc, firsts)?),
    })
}

impl Levels {
    /// Of no tree.
    pub fn new(alloc: Global) -> Levels
        ensures { result ≡ [] }
    {
        Levels {
            firsts: Firsts::Few {
                firsts: [0; FEW],
                count: 0,
                alloc,
            },
        }
    }

    /// Of a tree of one node, with this first token.
    pub fn of_one(alloc: Global, first: u32) -> Levels
        ensures { result ≡ first ∷ [] }
    {
        Levels {
            firsts: Firsts::Few {
                firsts: [first, 0, 0, 0, 0],
                count: 1,
                alloc,
            },
        }
    }

    fn as_slice(&self) -> &[u32]
        ensures { result.now ≡ self.now }
    {
        match &self.firsts {
            Firsts::Few { firsts, count, .. } => front(firsts, *count as usize),
            Firsts::Many(firsts) => firsts,
        }
    }

    /// How many levels there are.
    pub fn len(&self) -> usize
        ensures { result ≡ length self.now }
    {
        self.as_slice().len()
    }

    /// Puts a node above all, with this first token.
    pub fn cover(&mut self, alloc: Global, first: u32) -> Result<(), AllocError>
        ensures { OnOk result (self.new ≡ self.old ++ first ∷ []) }
    {
        if let Firsts::Few { firsts, count, .. } = &self.firsts {
            let count = *count;
            if (count as usize) < FEW {
                let firsts = with(*firsts, count as usize, first);
                let count = count + 1;
                *self = Levels {
                    firsts: Firsts::Few {
                        firsts,
                        count,
                        alloc,
                    },
                };
                return Ok(());
            }
        }
        let levels = replace(self, Levels::new(alloc));
        *self = levels.under(first)?;
        Ok(())
    }

    /// Puts trees behind these.
    #[inline(always)]
    #[tactic(auto, unfolding(crate::specs::Grow::merged), using(crate::proofs::Heights::merged_same, crate::proofs::Merged::merged_none))]
    pub fn join(&mut self, later: Levels) -> Result<(), AllocError>
        ensures { OnOk result (self.new ≡ spec.merged self.old later) }
    {
        let few = self.len();
        if later.len() <= few {
            return Ok(());
        }
        if few == 0 {
            *self = later;
            return Ok(());
        }
        self.lift(later)
    }

    /// Puts a tree of one node behind these, with this first token.
    #[inline(always)]
    #[tactic(auto, unfolding(crate::specs::Grow::merged), using(crate::proofs::Heights::merged_same, crate::proofs::Merged::merged_none))]
    pub fn join_one(&mut self, alloc: Global, first: u32)
        ensures { self.new ≡ spec.merged self.old (first ∷ []) }
    {
        if self.len() == 0 {
            *self = Levels::of_one(alloc, first);
        }
    }

    // Puts trees of more levels behind these.
    #[inline(never)]
    fn lift(&mut self, later: Levels) -> Result<(), AllocError>
        requires { length self.old < length later }
        ensures { OnOk result (self.new ≡ spec.merged self.old later) }
    {
        let levels = later.behind(self.as_slice())?;
        *self = levels;
        Ok(())
    }

    // With a node above all, with this first token.
    #[inline(never)]
    fn under(self, first: u32) -> Result<Levels, AllocError>
        ensures { IfOk result (λ levels. levels ≡ self ++ first ∷ []) }
    {
        let Levels { firsts } = self;
        match firsts {
            Firsts::Few {
                firsts,
                count,
                alloc,
            } => both(alloc, front(&firsts, count as usize), &[first]),
            Firsts::Many(mut firsts) => {
                firsts.push(first)?;
                Ok(Levels {
                    firsts: Firsts::Many(firsts),
                })
            }
        }
    }

    // With trees of fewer levels before these. The time is that of the fewer levels.
    #[tactic(auto, unfolding(crate::specs::Grow::merged), using(crate::proofs::Heights::merged_same, crate::proofs::Merged::merged_none))]
    fn behind(self, earlier: &[u32]) -> Result<Levels, AllocError>
        requires { length earlier.now < length self }
        ensures { IfOk result (λ all. all ≡ spec.merged earlier.now self) }
    {
        let few = earlier.len();
        let many = self.len();
        let Levels { firsts } = self;
        match firsts {
            Firsts::Few { firsts, alloc, .. } => Ok(Levels {
                firsts: Firsts::Few {
                    firsts: ended(firsts, many, earlier),
                    count: many as u8,
                    alloc,
                },
            }),
            Firsts::Many(mut firsts) => {
                firsts.truncate(many - few);
                firsts.extend_from_slice(earlier)?;
                Ok(Levels {
                    firsts: Firsts::Many(firsts),
                })
            }
        }
    }

    /// The first token of the leftmost tree, or another one where there is no tree.
    #[tactic(auto, unfolding(crate::specs::Grow::leading))]
    pub fn leading(&self, other: u32) -> u32
        ensures { result ≡ spec.leading other self.now }
    {
        self.at_depth(0).unwrap_or(other)
    }

    /// The first token of the leftmost node that stands under so many others.
    #[tactic(auto, unfolding(crate::specs::Grow::at_depth))]
    pub fn at_depth(&self, depth: usize) -> Option<u32>
        ensures { result ≡ spec.at_depth depth self.now }
    {
        let firsts = self.as_slice();
        if depth < firsts.len() {
            Some(firsts[firsts.len() - 1 - depth])
        } else {
            None
        }
    }
}
