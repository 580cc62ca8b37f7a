// methods.rs: lawson_euler, norsett_euler, etd2, etdrk2, etdrk3, etdrk4 and hoch_ost4. A pass is replayed
// over the answers so far: a scheme works out the state of its first question, and a function for each
// question takes the pass up there.
// Kept: a part takes what it needs of the parts before it, by the scheme's own names, and says what that is and how many answers there are; a struct for each part would be made once and read once.
// au stays beside r: it is a Replay's own product with its state, and a Replay that has it would be a second struct of the same fields.
#![tactic(auto)]

ghost use Rattle.std.specs.Prelude.{◌≡◌, List, ℕ, ◌+◌, ◌-◌, ◌≤◌, Float};
ghost use Rattle.methods.specs.Pass.{replay};
ghost use Rattle.methods.specs.Parts.{narrowed, in32, taken, made, stand, replay_from, reached};
ghost use Rattle.methods.specs.Schemes.{lawson_euler, norsett_euler, etd2, etdrk2, etdrk3, etdrk4, a52, hoch_ost4};
ghost use Rattle.lawson_etd.specs.Stages.{etdrk2_2, etdrk3_2, etdrk3_3, etdrk4_2, etdrk4_3, etdrk4_4};
ghost use Rattle.lawson_etd.specs.Stages.{hoch_ost4_2, hoch_ost4_3, hoch_ost4_4, hoch_ost4_5, sum5, a52_of, a54_of, whole, halved};

use methods::Order::{One, Three, Two};
use methods::{
    Action, Dimension, PLACES, Point, Reached, Replay, Tally, Vector, add, added, after, asked,
    axpy, ended, more, nothing, scale, scaled, subtract,
};

// ---- the schemes without a question

#[inline(never)]
pub fn lawson_euler(r: &Replay<'_>, g: Vector) -> Option<Reached>
    ensures { (count first : ℕ) (answers : List Float) → stand result ≡ in32 (replay r.now.point.n
        (lawson_euler r.now.point.n r.now.jacobian.now r.now.point.state g r.now.point.step) count first answers) }
{
    let Point {
        n,
        step: h,
        state: u,
        ..
    } = r.point;
    let shifted = axpy(u, h, g, n);
    let s = r.exp_action(h, shifted)?;
    ended(s.tally, s.v, [0.0; PLACES])
}

#[inline(never)]
pub fn norsett_euler(r: &Replay<'_>) -> Option<Reached>
    ensures { (count first : ℕ) (answers : List Float) → stand result ≡ in32 (replay r.now.point.n
        (norsett_euler r.now.point.n r.now.jacobian.now r.now.point.state r.now.point.f0 r.now.point.step) count first answers) }
{
    let Point {
        n,
        step: h,
        state: u,
        f0,
        ..
    } = r.point;
    let x = added(u, r.phi_term(h, One, h, f0)?, n);
    ended(x.tally, x.v, [0.0; PLACES])
}

#[inline(never)]
pub fn etd2(r: &Replay<'_>, g: Vector) -> Option<Reached>
    ensures { (count first : ℕ) (answers : List Float) → stand result ≡ in32 (replay r.now.point.n
        (etd2 r.now.point.n r.now.jacobian.now r.now.point.state r.now.point.step g r.now.point.previous) count first answers) }
{
    let Point {
        step: h,
        state: u,
        previous,
        ..
    } = r.point;
    let k = r.exp_action(h, u)?;
    let k = r.add_term(k, 1.0, h, One, h, g)?;
    match previous {
        Some(previous) => {
            let k = r.add_term(k, 1.0, h, Two, h, g)?;
            let k = r.add_term(k, -1.0, h, Two, h, previous)?;
            ended(k.tally, k.v, [0.0; PLACES])
        }
        None => ended(k.tally, k.v, [0.0; PLACES]),
    }
}

// ---- etdrk2

#[inline(never)]
pub fn etdrk2(r: &Replay<'_>, g0: Vector) -> Option<Reached>
    ensures { stand result ≡ in32 (replay_from r.now 0 (etdrk2 r.now.point.n r.now.jacobian.now r.now.point.state r.now.point.time r.now.point.step r.now.point.f0 g0)) }
{
    let Point {
        n,
        step: h,
        state: u,
        f0,
        ..
    } = r.point;
    let s2 = added(u, r.phi_term(h, One, h, f0)?, n);
    etdrk2_2(r, g0, s2.tally, s2.v)
}

fn etdrk2_2(r: &Replay<'_>, g0: Vector, tally: Tally, u2: Vector) -> Option<Reached>
    ensures { stand result ≡ reached r.now 0 tally (etdrk2_2 r.now.point r.now.jacobian.now g0 u2) }
{
    let Point {
        n,
        time: t,
        step: h,
        ..
    } = r.point;
    let question = asked(u2, t + h)?;
    if r.count == 0 {
        return Some(question);
    }
    let f2 = r.evaluated(0);
    let g2 = subtract(f2, r.times(u2), n);
    let difference = subtract(g2, g0, n);
    let s = added(u2, r.phi_term(h, Two, h, difference)?, n);
    ended(tally.joined(s.tally), s.v, [0.0; PLACES])
}

// ---- etdrk3

#[inline(never)]
pub fn etdrk3(r: &Replay<'_>, au: Vector) -> Option<Reached>
    ensures { stand result ≡ in32 (replay_from r.now 0 (etdrk3 r.now.point.n r.now.jacobian.now r.now.point.state r.now.point.time r.now.point.step r.now.point.f0 au)) }
{
    let Point {
        n,
        step: h,
        state: u,
        f0: f1,
        ..
    } = r.point;
    let s2 = added(u, r.phi_term(h / 2.0, One, h / 2.0, f1)?, n);
    etdrk3_2(r, au, s2.tally, s2.v)
}

fn etdrk3_2(r: &Replay<'_>, au: Vector, tally: Tally, u2: Vector) -> Option<Reached>
    ensures { stand result ≡ reached r.now 0 tally (etdrk3_2 r.now.point r.now.jacobian.now au u2) }
{
    let Point {
        n,
        time: t,
        step: h,
        state: u,
        f0: f1,
        ..
    } = r.point;
    let question = asked(u2, t + h / 2.0)?;
    if r.count == 0 {
        return Some(question);
    }
    let f2 = r.shifted_stage(u2, au, 0);
    let stage = axpy(scale(f2, 2.0, n), -1.0, f1, n);
    let s3 = added(u, r.phi_term(h, One, h, stage)?, n);
    etdrk3_3(r, au, tally.joined(s3.tally), f2, s3.v)
}

fn etdrk3_3(r: &Replay<'_>, au: Vector, tally: Tally, f2: Vector, u3: Vector) -> Option<Reached>
    requires { 1 ≤ r.now.count }
    ensures { stand result ≡ reached r.now 1 tally (etdrk3_3 r.now.point r.now.jacobian.now au f2 u3) }
{
    let Point {
        n,
        time: t,
        step: h,
        state: u,
        f0: f1,
        ..
    } = r.point;
    let question = asked(u3, t + h)?;
    if r.count == 1 {
        return Some(question);
    }
    let f3 = r.shifted_stage(u3, au, 1);
    let k = r.phi_term(h, One, h, f1)?;
    let k = r.add_term(k, -3.0, h, Two, h, f1)?;
    let k = r.add_term(k, 4.0, h, Three, h, f1)?;
    let k = r.add_term(k, 4.0, h, Two, h, f2)?;
    let k = r.add_term(k, -8.0, h, Three, h, f2)?;
    let k = r.add_term(k, -1.0, h, Two, h, f3)?;
    let k = r.add_term(k, 4.0, h, Three, h, f3)?;
    ended(tally.joined(k.tally), add(u, k.v, n), [0.0; PLACES])
}

// ---- etdrk4

#[inline(never)]
pub fn etdrk4(r: &Replay<'_>, au: Vector) -> Option<Reached>
    ensures { stand result ≡ in32 (replay_from r.now 0 (etdrk4 r.now.point.n r.now.jacobian.now r.now.point.state r.now.point.time r.now.point.step r.now.point.f0 au)) }
{
    let Point {
        n,
        step: h,
        state: u,
        f0: f1,
        ..
    } = r.point;
    let half = h / 2.0;
    let s2 = added(u, r.phi_term(half, One, half, f1)?, n);
    etdrk4_2(r, au, s2.tally, s2.v)
}

fn etdrk4_2(r: &Replay<'_>, au: Vector, tally: Tally, u2: Vector) -> Option<Reached>
    ensures { stand result ≡ reached r.now 0 tally (etdrk4_2 r.now.point r.now.jacobian.now au u2) }
{
    let Point {
        n,
        time: t,
        step: h,
        state: u,
        ..
    } = r.point;
    let half = h / 2.0;
    let question = asked(u2, t + half)?;
    if r.count == 0 {
        return Some(question);
    }
    let f2 = r.shifted_stage(u2, au, 0);
    let s3 = added(u, r.phi_term(half, One, half, f2)?, n);
    etdrk4_3(r, au, tally.joined(s3.tally), u2, f2, s3.v)
}

fn etdrk4_3(
    r: &Replay<'_>,
    au: Vector,
    tally: Tally,
    u2: Vector,
    f2: Vector,
    u3: Vector,
) -> Option<Reached>
    requires { 1 ≤ r.now.count }
    ensures { stand result ≡ reached r.now 1 tally (etdrk4_3 r.now.point r.now.jacobian.now au u2 f2 u3) }
{
    let Point {
        n,
        time: t,
        step: h,
        f0: f1,
        ..
    } = r.point;
    let half = h / 2.0;
    let question = asked(u3, t + half)?;
    if r.count == 1 {
        return Some(question);
    }
    let f3 = r.shifted_stage(u3, au, 1);
    let combination = axpy(axpy(scale(f3, 2.0, n), -1.0, f1, n), -1.0, au, n);
    let combination = axpy(combination, 1.0, r.times(u2), n);
    let s4 = after(u2, 1.0, r.phi_term(half, One, half, combination)?, n);
    etdrk4_4(r, au, tally.joined(s4.tally), f2, f3, s4.v)
}

fn etdrk4_4(
    r: &Replay<'_>,
    au: Vector,
    tally: Tally,
    f2: Vector,
    f3: Vector,
    u4: Vector,
) -> Option<Reached>
    requires { 2 ≤ r.now.count }
    ensures { stand result ≡ reached r.now 2 tally (etdrk4_4 r.now.point r.now.jacobian.now au f2 f3 u4) }
{
    let Point {
        n,
        time: t,
        step: h,
        state: u,
        f0: f1,
        ..
    } = r.point;
    let question = asked(u4, t + h)?;
    if r.count == 2 {
        return Some(question);
    }
    let f4 = r.shifted_stage(u4, au, 2);
    let k = r.phi_term(h, One, h, f1)?;
    let k = r.add_term(k, -3.0, h, Two, h, f1)?;
    let k = r.add_term(k, 4.0, h, Three, h, f1)?;
    let k = r.add_term(k, 2.0, h, Two, h, f2)?;
    let k = r.add_term(k, -4.0, h, Three, h, f2)?;
    let k = r.add_term(k, 2.0, h, Two, h, f3)?;
    let k = r.add_term(k, -4.0, h, Three, h, f3)?;
    let k = r.add_term(k, -1.0, h, Two, h, f4)?;
    let k = r.add_term(k, 4.0, h, Three, h, f4)?;
    ended(tally.joined(k.tally), add(u, k.v, n), [0.0; PLACES])
}

// ---- hoch_ost4: every phi term is worked out once and handed on

// a52 of four phi terms of one vector.
fn a52(p2h: Action, p3: Action, p2: Action, p3h: Action, n: Dimension) -> Action
    ensures { taken result ≡ narrowed (a52_of n (taken p2h) (taken p3) (taken p2) (taken p3h)) }
{
    let k = more(nothing(), 0.5, p2h, n);
    let k = more(k, -1.0, p3, n);
    let k = more(k, 0.25, p2, n);
    more(k, -0.5, p3h, n)
}

// a54 of a phi term and a52 of the same vector.
fn a54(p2h: Action, inner: Action, n: Dimension) -> Action
    ensures { taken result ≡ narrowed (a54_of n (taken p2h) (taken inner)) }
{
    let k = more(nothing(), 0.25, p2h, n);
    more(k, -1.0, inner, n)
}

// a52 of a vector.
fn a52_of(r: &Replay<'_>, v: Vector) -> Option<Action>
    ensures { result ≡ made (narrowed (a52 r.now.point.n r.now.jacobian.now r.now.point.step v)) }
{
    let Point { n, step: h, .. } = r.point;
    let p2h = r.phi_term(h / 2.0, Two, 1.0, v)?;
    let p3 = r.phi_term(h, Three, 1.0, v)?;
    let p2 = r.phi_term(h, Two, 1.0, v)?;
    let p3h = r.phi_term(h / 2.0, Three, 1.0, v)?;
    Some(a52(p2h, p3, p2, p3h, n))
}

#[inline(never)]
pub fn hoch_ost4(r: &Replay<'_>, au: Vector) -> Option<Reached>
    ensures { stand result ≡ in32 (replay_from r.now 0 (hoch_ost4 r.now.point.n r.now.jacobian.now r.now.point.state r.now.point.time r.now.point.step r.now.point.f0 au)) }
{
    let Point {
        n,
        step: h,
        state: u,
        f0: f1,
        ..
    } = r.point;
    let half = h / 2.0;
    let p1h = r.phi_term(half, One, 1.0, f1)?;
    let u2 = add(u, scale(p1h.v, half, n), n);
    hoch_ost4_2(r, au, p1h.tally, p1h, u2)
}

fn hoch_ost4_2(r: &Replay<'_>, au: Vector, tally: Tally, p1h: Action, u2: Vector) -> Option<Reached>
    requires { taken p1h ≡ halved r.now.point r.now.jacobian.now 1 r.now.point.f0 }
    ensures { stand result ≡ reached r.now 0 tally (hoch_ost4_2 r.now.point r.now.jacobian.now au u2) }
{
    let Point {
        n,
        time: t,
        step: h,
        state: u,
        f0: f1,
        ..
    } = r.point;
    let half = h / 2.0;
    let question = asked(u2, t + half)?;
    if r.count == 0 {
        return Some(question);
    }
    let f2 = r.shifted_stage(u2, au, 0);
    let k = scaled(p1h, 0.5, n);
    let p2h = r.phi_term(half, Two, 1.0, f1)?;
    let k = more(k, -1.0, p2h, n);
    let k = r.add_term(k, 1.0, half, Two, 1.0, f2)?;
    let u3 = add(u, scale(k.v, h, n), n);
    let tally = tally.joined(k.tally);
    hoch_ost4_3(r, au, tally, p1h, p2h, f2, u3)
}

fn hoch_ost4_3(
    r: &Replay<'_>,
    au: Vector,
    tally: Tally,
    p1h: Action,
    p2h: Action,
    f2: Vector,
    u3: Vector,
) -> Option<Reached>
    requires le_count { 1 ≤ r.now.count }
    requires p1h_value { (taken p1h ≡ halved r.now.point r.now.jacobian.now 1 r.now.point.f0) × (taken p2h ≡ halved r.now.point r.now.jacobian.now 2 r.now.point.f0) }
    ensures { stand result ≡ reached r.now 1 tally (hoch_ost4_3 r.now.point r.now.jacobian.now au f2 u3) }
{
    let Point {
        n,
        time: t,
        step: h,
        state: u,
        f0: f1,
        ..
    } = r.point;
    let half = h / 2.0;
    let question = asked(u3, t + half)?;
    if r.count == 1 {
        return Some(question);
    }
    let f3 = r.shifted_stage(u3, au, 1);
    let p1 = r.phi_term(h, One, 1.0, f1)?;
    let p2 = r.phi_term(h, Two, 1.0, f1)?;
    let k = more(p1, -2.0, p2, n);
    let k = r.add_term(k, 1.0, h, Two, 1.0, f2)?;
    let k = r.add_term(k, 1.0, h, Two, 1.0, f3)?;
    let u4 = add(u, scale(k.v, h, n), n);
    let tally = tally.joined(k.tally);
    hoch_ost4_4(r, au, tally, p1h, p2h, p1, p2, f2, f3, u4)
}

// hoch_ost4's fifth combination. It and the parts after it are inlined: their frames would stand one above the other, past 32 KiB in all.
#[inline(always)]
fn hoch_ost4_sum(
    r: &Replay<'_>,
    p1h: Action,
    p2h: Action,
    p2: Action,
    p3: Action,
    sum23: Vector,
    f4: Vector,
    g2: Action,
    g3: Action,
) -> Option<Action>
    requires p2h_value { (taken p2h ≡ halved r.now.point r.now.jacobian.now 2 r.now.point.f0) × (taken p2 ≡ whole r.now.point r.now.jacobian.now 2 r.now.point.f0)
        × (taken p3 ≡ whole r.now.point r.now.jacobian.now 3 r.now.point.f0) }
    requires g2_value { (taken g2 ≡ whole r.now.point r.now.jacobian.now 2 f4) × (taken g3 ≡ whole r.now.point r.now.jacobian.now 3 f4) }
    ensures { result ≡ made (narrowed (sum5 r.now.point r.now.jacobian.now (taken p1h) sum23 f4)) }
{
    let Point {
        n,
        step: h,
        f0: f1,
        ..
    } = r.point;
    let half = h / 2.0;
    let p3h = r.phi_term(half, Three, 1.0, f1)?;
    let k52 = a52(p2h, p3, p2, p3h, n);
    let k54 = a54(p2h, k52, n);
    let g2h = r.phi_term(half, Two, 1.0, f4)?;
    let g3h = r.phi_term(half, Three, 1.0, f4)?;
    let g54 = a54(g2h, a52(g2h, g3, g2, g3h, n), n);
    let k = scaled(p1h, 0.5, n);
    let k = more(k, -2.0, k52, n);
    let k = more(k, -1.0, k54, n);
    let k = more(k, 1.0, a52_of(r, sum23)?, n);
    Some(more(k, 1.0, g54, n))
}

#[inline(always)]
fn hoch_ost4_4(
    r: &Replay<'_>,
    au: Vector,
    tally: Tally,
    p1h: Action,
    p2h: Action,
    p1: Action,
    p2: Action,
    f2: Vector,
    f3: Vector,
    u4: Vector,
) -> Option<Reached>
    requires le_count { 2 ≤ r.now.count }
    requires p1h_value { (taken p1h ≡ halved r.now.point r.now.jacobian.now 1 r.now.point.f0) × (taken p2h ≡ halved r.now.point r.now.jacobian.now 2 r.now.point.f0) }
    requires p1_value { (taken p1 ≡ whole r.now.point r.now.jacobian.now 1 r.now.point.f0) × (taken p2 ≡ whole r.now.point r.now.jacobian.now 2 r.now.point.f0) }
    ensures { stand result ≡ reached r.now 2 tally (hoch_ost4_4 r.now.point r.now.jacobian.now au f2 f3 u4) }
{
    let Point {
        n,
        time: t,
        step: h,
        state: u,
        f0: f1,
        ..
    } = r.point;
    let question = asked(u4, t + h)?;
    if r.count == 2 {
        return Some(question);
    }
    let f4 = r.shifted_stage(u4, au, 2);
    let p3 = r.phi_term(h, Three, 1.0, f1)?;
    let g2 = r.phi_term(h, Two, 1.0, f4)?;
    let g3 = r.phi_term(h, Three, 1.0, f4)?;
    let sum23 = add(f2, f3, n);
    let s5 = hoch_ost4_sum(r, p1h, p2h, p2, p3, sum23, f4, g2, g3)?;
    let u5 = add(u, scale(s5.v, h, n), n);
    let tally = tally.joined(s5.tally);
    hoch_ost4_5(r, au, tally, p1, p2, p3, f4, g2, g3, u5)
}

#[inline(always)]
fn hoch_ost4_5(
    r: &Replay<'_>,
    au: Vector,
    tally: Tally,
    p1: Action,
    p2: Action,
    p3: Action,
    f4: Vector,
    g2: Action,
    g3: Action,
    u5: Vector,
) -> Option<Reached>
    requires le_count { 3 ≤ r.now.count }
    requires p1_value { (taken p1 ≡ whole r.now.point r.now.jacobian.now 1 r.now.point.f0) × (taken p2 ≡ whole r.now.point r.now.jacobian.now 2 r.now.point.f0)
        × (taken p3 ≡ whole r.now.point r.now.jacobian.now 3 r.now.point.f0) }
    requires g2_value { (taken g2 ≡ whole r.now.point r.now.jacobian.now 2 f4) × (taken g3 ≡ whole r.now.point r.now.jacobian.now 3 f4) }
    ensures { stand result ≡ reached r.now 3 tally (hoch_ost4_5 r.now.point r.now.jacobian.now au f4 u5) }
{
    let Point {
        n,
        time: t,
        step: h,
        state: u,
        ..
    } = r.point;
    let half = h / 2.0;
    let question = asked(u5, t + half)?;
    if r.count == 3 {
        return Some(question);
    }
    let f5 = r.shifted_stage(u5, au, 3);
    let k = more(p1, -3.0, p2, n);
    let k = more(k, 4.0, p3, n);
    let k = more(k, -1.0, g2, n);
    let k = more(k, 4.0, g3, n);
    let k = r.add_term(k, 4.0, h, Two, 1.0, f5)?;
    let k = r.add_term(k, -8.0, h, Three, 1.0, f5)?;
    let x = add(u, scale(k.v, h, n), n);
    ended(tally.joined(k.tally), x, [0.0; PLACES])
}
