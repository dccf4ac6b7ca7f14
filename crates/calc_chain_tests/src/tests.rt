ghost use Rattle.std.specs.Prelude.{◌≡◌, [], OnOk};
ghost use Rattle.calc_chain.specs.Chain.{has};

use super::plain::PlainChain;
use calc_chain::Chain;
use std::alloc::Global;
use std::process::Abort;
use std::test::Fail;

/// Numbers that look random, from a seed.
#[derive(Drop)]
struct Dice {
    state: u64,
}

impl Dice {
    /// A number below so many, or 0.
    fn below(&mut self, sides: u32) -> u32 {
        let state = self.state.wrapping_mul(6_364_136_223_846_793_005);
        self.state = state.wrapping_add(1_442_695_040_888_963_407);
        u32::try_from((self.state >> 33) % u64::from(sides.max(1))).unwrap_or(0)
    }
}

/// Whether a number is listed.
fn is_listed(list: &[u32], x: u32) -> bool
    ensures { result ≡ has list.now x }
{
    list.contains(&x)
}

/// Puts a number at the end of both, where it isn't there.
fn append(alloc: Global, chain: &mut Chain, plain: &mut PlainChain, x: u32) -> Result<(), Fail>
    requires { chain.old.due ≡ [] }
    ensures { OnOk result (chain.new.due ≡ []) }
{
    let list = chain.list(alloc)?;
    if !is_listed(&list, x) {
        chain.append(x)?;
        plain.append(x)?;
    }
    Ok(())
}

/// Moves an entry of both behind another, where both are there.
fn move_behind(
    rt: &impl Abort,
    alloc: Global,
    chain: &mut Chain,
    plain: &mut PlainChain,
    x: u32,
    y: u32,
) -> Result<(), Fail>
    requires { chain.old.due ≡ [] }
    ensures { OnOk result (chain.new.due ≡ []) }
{
    let list = chain.list(alloc)?;
    if x != y && is_listed(&list, x) && is_listed(&list, y) {
        assert_eq!(rt; chain.behind(x, y), plain.behind(x, y));
        chain.move_behind(x, y);
        plain.move_behind(x, y)?;
    }
    Ok(())
}

/// One edit of both, by dice; they then have the same order.
fn edit(
    rt: &impl Abort,
    alloc: Global,
    chain: &mut Chain,
    plain: &mut PlainChain,
    dice: &mut Dice,
) -> Result<(), Fail>
    requires { chain.old.due ≡ [] }
    ensures { OnOk result (chain.new.due ≡ []) }
{
    let x = dice.below(40);
    match dice.below(8) {
        0 | 1 => append(alloc, chain, plain, x)?,
        2 => {
            chain.remove(x);
            plain.remove(x);
        }
        _ => move_behind(rt, alloc, chain, plain, x, dice.below(40))?,
    }
    let list = chain.list(alloc)?;
    assert_eq!(rt; list.as_slice(), plain.order());
    Ok(())
}

#[test]
fn a_chain_does_as_a_vector_does(rt: HostRuntime) -> Result<(), Fail> {
    let mut chain = Chain::new(rt.alloc());
    let mut plain = PlainChain::new(rt.alloc());
    let mut dice = Dice { state: 1 };
    'edits: for _ in 0..5_000 {
        edit(&rt, rt.alloc(), &mut chain, &mut plain, &mut dice)?;
    }
    Ok(())
}

#[test]
fn labels_are_renewed_where_many_stand_behind_one(rt: HostRuntime) -> Result<(), Fail> {
    let mut chain = Chain::new(rt.alloc());
    let mut plain = PlainChain::new(rt.alloc());
    'appends: for x in 1..=800 {
        append(rt.alloc(), &mut chain, &mut plain, x)?;
    }
    append(rt.alloc(), &mut chain, &mut plain, 0)?;
    'moves: for x in 1..=800 {
        move_behind(&rt, rt.alloc(), &mut chain, &mut plain, x, 0)?;
    }
    let list = chain.list(rt.alloc())?;
    assert_eq!(rt; list.as_slice(), plain.order());
    Ok(())
}
