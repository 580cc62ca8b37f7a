// methods.rs: the exponential Rosenbrock schemes exprb32, exprb43 and exprb53s3; the first two have an
// error vector. A pass is replayed over the answers so far: a scheme works out the state of its first
// question, and a function for each question takes the pass up there. A phi action that the question to
// come does not use is only tested.
// Kept: a part takes what it needs of the parts before it, by the scheme's own names, and says what that is and how many answers there are; a struct for each part would be made once and read once.
// au stays beside r: it is a Replay's own product with its state, and a Replay that has it would be a second struct of the same fields.
#![tactic(auto)]

ghost use Rattle.std.specs.Prelude.{◌≡◌, ◌≤◌};
ghost use Rattle.matrix.specs.Vector.{mat_vec};
ghost use Rattle.methods.specs.Parts.{in32, stand, replay_from, reached};
ghost use Rattle.methods.specs.Schemes.{exprb32, exprb43, exprb53s3};
ghost use Rattle.rosenbrock.specs.Stages.{exprb32_2, exprb43_2, exprb43_3, exprb53s3_2, exprb53s3_3};

use methods::Order::{Four, One, Three};
use methods::{
    PLACES, Point, Reached, Replay, Tally, Vector, add, after, asked, axpy, combine2, ended, scale,
};

// ---- exprb32

#[inline(never)]
pub fn exprb32(r: &Replay<'_>, au: Vector) -> Option<Reached>
    requires { au ≡ mat_vec r.now.point.n r.now.jacobian.now r.now.point.state }
    ensures { stand result ≡ in32 (replay_from r.now 0 (exprb32 r.now.point.n r.now.jacobian.now r.now.point.state r.now.point.time r.now.point.step r.now.point.f0)) }
{
    let Point {
        n,
        step: h,
        state: u,
        f0: f1,
        ..
    } = r.point;
    let k1 = r.phi_action(h, One, f1)?;
    let u2 = add(u, scale(k1.v, h, n), n);
    exprb32_2(r, au, k1.tally, k1.v, u2)
}

fn exprb32_2(r: &Replay<'_>, au: Vector, tally: Tally, w1: Vector, u2: Vector) -> Option<Reached>
    ensures { stand result ≡ reached r.now 0 tally (exprb32_2 r.now.point r.now.jacobian.now au w1 u2) }
{
    let Point {
        n,
        time: t,
        step: h,
        state: u,
        f0: f1,
        ..
    } = r.point;
    let question = asked(u2, t + h)?;
    if r.count == 0 {
        return Some(question);
    }
    let f2 = r.shifted_stage(u2, au, 0);
    let k13 = r.phi_action(h, Three, f1)?;
    let k23 = r.phi_action(h, Three, f2)?;
    let tally = tally.joined(k13.tally).joined(k23.tally);
    let increment = scale(w1, h, n);
    let increment = axpy(increment, -2.0 * h, k13.v, n);
    let increment = axpy(increment, 2.0 * h, k23.v, n);
    let error = scale(k23.v, 2.0 * h, n);
    let error = axpy(error, -2.0 * h, k13.v, n);
    ended(tally, add(u, increment, n), error)
}

// ---- exprb43

#[inline(never)]
pub fn exprb43(r: &Replay<'_>, au: Vector) -> Option<Reached>
    ensures { stand result ≡ in32 (replay_from r.now 0 (exprb43 r.now.point.n r.now.jacobian.now r.now.point.state r.now.point.time r.now.point.step r.now.point.f0 au)) }
{
    let Point {
        n,
        step: h,
        state: u,
        f0: f1,
        ..
    } = r.point;
    let k1h = r.phi_action(h / 2.0, One, f1)?;
    let last = 2 <= r.count;
    let k11 = r.phi_if(last, h, One, f1)?;
    let k13 = r.phi_if(last, h, Three, f1)?;
    let k14 = r.phi_if(last, h, Four, f1)?;
    let tally = k1h
        .tally
        .joined(k11.tally)
        .joined(k13.tally)
        .joined(k14.tally);
    let u2 = add(u, scale(k1h.v, h / 2.0, n), n);
    exprb43_2(r, au, tally, k11.v, k13.v, k14.v, u2)
}

fn exprb43_2(
    r: &Replay<'_>,
    au: Vector,
    tally: Tally,
    w11: Vector,
    w13: Vector,
    w14: Vector,
    u2: Vector,
) -> Option<Reached>
    ensures { stand result ≡ reached r.now 0 tally (exprb43_2 r.now.point r.now.jacobian.now au w11 w13 w14 u2) }
{
    let Point {
        n,
        time: t,
        step: h,
        state: u,
        ..
    } = r.point;
    let question = asked(u2, t + h / 2.0)?;
    if r.count == 0 {
        return Some(question);
    }
    let f2 = r.shifted_stage(u2, au, 0);
    let k21 = r.phi_action(h, One, f2)?;
    let last = 2 <= r.count;
    let k23 = r.phi_if(last, h, Three, f2)?;
    let k24 = r.phi_if(last, h, Four, f2)?;
    let tally = tally.joined(k21.tally).joined(k23.tally).joined(k24.tally);
    let u3 = add(u, scale(k21.v, h, n), n);
    exprb43_3(r, au, tally, w11, w13, w14, k23.v, k24.v, u3)
}

fn exprb43_3(
    r: &Replay<'_>,
    au: Vector,
    tally: Tally,
    w11: Vector,
    w13: Vector,
    w14: Vector,
    w23: Vector,
    w24: Vector,
    u3: Vector,
) -> Option<Reached>
    requires { 1 ≤ r.now.count }
    ensures { stand result ≡ reached r.now 1 tally (exprb43_3 r.now.point r.now.jacobian.now au w11 w13 w14 w23 w24 u3) }
{
    let Point {
        n,
        time: t,
        step: h,
        state: u,
        ..
    } = r.point;
    let question = asked(u3, t + h)?;
    if r.count == 1 {
        return Some(question);
    }
    let f3 = r.shifted_stage(u3, au, 1);
    let k33 = r.phi_action(h, Three, f3)?;
    let k34 = r.phi_action(h, Four, f3)?;
    let tally = tally.joined(k33.tally).joined(k34.tally);
    let increment = scale(w11, h, n);
    let increment = axpy(increment, -14.0 * h, w13, n);
    let increment = axpy(increment, 36.0 * h, w14, n);
    let increment = axpy(increment, 16.0 * h, w23, n);
    let increment = axpy(increment, -48.0 * h, w24, n);
    let increment = axpy(increment, -2.0 * h, k33.v, n);
    let increment = axpy(increment, 12.0 * h, k34.v, n);
    let error = scale(w14, 36.0 * h, n);
    let error = axpy(error, -48.0 * h, w24, n);
    let error = axpy(error, 12.0 * h, k34.v, n);
    ended(tally, add(u, increment, n), error)
}

// ---- exprb53s3

#[inline(never)]
pub fn exprb53s3(r: &Replay<'_>) -> Option<Reached>
    ensures { stand result ≡ in32 (replay_from r.now 0 (exprb53s3 r.now.point.n r.now.jacobian.now r.now.point.state r.now.point.time r.now.point.step r.now.point.f0)) }
{
    let Point {
        n,
        step: h,
        state: u,
        f0,
        ..
    } = r.point;
    let k2 = r.phi_term(h / 2.0, One, h / 2.0, f0)?;
    let k3base = r.phi_term_if(1 <= r.count, 0.9 * h, One, 0.9 * h, f0)?;
    let tally = k2.tally.joined(k3base.tally);
    let u2 = add(u, k2.v, n);
    exprb53s3_2(r, tally, k3base.v, u2)
}

fn exprb53s3_2(r: &Replay<'_>, tally: Tally, k3base: Vector, u2: Vector) -> Option<Reached>
    ensures { stand result ≡ reached r.now 0 tally (exprb53s3_2 r.now.point r.now.jacobian.now k3base u2) }
{
    let Point {
        n,
        time: t,
        step: h,
        state: u,
        f0,
        ..
    } = r.point;
    let question = asked(u2, t + h / 2.0)?;
    if r.count == 0 {
        return Some(question);
    }
    let r2 = r.remainder(u2, 0);
    let u3 = add(u, k3base, n);
    let k3 = r.phi_term(h / 2.0, Three, float::powi3(h / 2.0), r2)?;
    let s3 = after(u3, 216.0 / (25.0 * h * h), k3, n);
    let cube = float::powi3(0.9 * h);
    let s3 = r.add_term(s3, 8.0 / (h * h), 0.9 * h, Three, cube, r2)?;
    let tally = tally.joined(s3.tally);
    exprb53s3_3(r, tally, r2, s3.v)
}

fn exprb53s3_3(r: &Replay<'_>, tally: Tally, r2: Vector, u3: Vector) -> Option<Reached>
    requires { 1 ≤ r.now.count }
    ensures { stand result ≡ reached r.now 1 tally (exprb53s3_3 r.now.point r.now.jacobian.now r2 u3) }
{
    let Point {
        n,
        time: t,
        step: h,
        state: u,
        f0,
        ..
    } = r.point;
    let question = asked(u3, t + 0.9 * h)?;
    if r.count == 1 {
        return Some(question);
    }
    let r3 = r.remainder(u3, 1);
    let cube = float::powi3(h);
    let b4 = combine2(18.0 / (h * h), r2, -250.0 / (81.0 * h * h), r3, n);
    let b5 = combine2(-60.0 / cube, r2, 500.0 / (27.0 * cube), r3, n);
    let k = r.phi_term(h, One, h, f0)?;
    let k = r.add_term(k, 1.0, h, Three, cube, b4)?;
    let k = r.add_term(k, 1.0, h, Four, float::powi4(h), b5)?;
    ended(tally.joined(k.tally), add(u, k.v, n), [0.0; PLACES])
}
