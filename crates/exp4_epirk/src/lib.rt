// methods.rs: exp4, epirk4s3, epirk5s3 and epirk5p, the schemes over remainders. A pass is replayed over
// the answers so far: a scheme works out the state of its first question, and a function for each
// question takes the pass up there. A phi term that the question to come does not use is only tested.
// Kept: a part takes what it needs of the parts before it, by the scheme's own names, and says what that is and how many answers there are; a struct for each part would be made once and read once.
#![tactic(auto)]

ghost use Rattle.std.specs.Prelude.{◌≡◌, cond, List, ℕ, ◌+◌, ◌-◌, ◌≤◌, leb, Float};
ghost use Rattle.methods.specs.Numbers.{num};
ghost use Rattle.methods.specs.Order.{order_number};
ghost use Rattle.methods.specs.Tally.{Tried};
ghost use Rattle.methods.specs.Pass.{under, replay};
ghost use Rattle.methods.specs.Parts.{if_wanted, in32, report, taken, stand, replay_from, reached};
ghost use Rattle.methods.specs.Schemes.{exp4, epirk4s3, epirk4s3_a, epirk4s3_b, epirk5s3, powi, epirk5p, epirk5p_end, epirk5p1, epirk5p2};
ghost use Rattle.exp4_epirk.specs.Variant.{is_second};
ghost use Rattle.exp4_epirk.specs.Stages.{exp4_4, exp4_7, epirk4s3_2, epirk4s3_3, epirk5s3_2, epirk5s3_3, epirk5p_1, epirk5p_2};

use methods::Order::{Four, One, Three, Two};
use methods::{
    Action, Order, PLACES, Point, Reached, Replay, Tally, Vector, add, after, asked, axpy,
    combine2, combine3, ended, more, scale,
};

// ---- exp4

#[inline(never)]
pub fn exp4(r: &Replay<'_>) -> Option<Reached>
    ensures { stand result ≡ in32 (replay_from r.now 0 (exp4 r.now.point.n r.now.jacobian.now r.now.point.state r.now.point.time r.now.point.step r.now.point.f0)) }
{
    let Point {
        n,
        step: h,
        state: u,
        f0,
        ..
    } = r.point;
    let k10 = r.phi_term(h / 3.0, One, 1.0, f0)?;
    let k11 = r.phi_term(2.0 * h / 3.0, One, 1.0, f0)?;
    let k12 = r.phi_term(h, One, 1.0, f0)?;
    let tally = k10.tally.joined(k11.tally).joined(k12.tally);
    let w4 = combine3(
        -7.0 / 300.0,
        k10.v,
        97.0 / 150.0,
        k11.v,
        -37.0 / 300.0,
        k12.v,
        n,
    );
    let u4 = add(u, scale(w4, h, n), n);
    exp4_4(r, tally, k10.v, k11.v, k12.v, u4)
}

fn exp4_4(
    r: &Replay<'_>,
    tally: Tally,
    k10: Vector,
    k11: Vector,
    k12: Vector,
    u4: Vector,
) -> Option<Reached>
    ensures { stand result ≡ reached r.now 0 tally (exp4_4 r.now.point r.now.jacobian.now k10 k11 k12 u4) }
{
    let Point {
        n,
        time: t,
        step: h,
        state: u,
        f0,
        ..
    } = r.point;
    let question = asked(u4, t + h)?;
    if r.count == 0 {
        return Some(question);
    }
    let d4 = r.remainder(u4, 0);
    let k20 = r.phi_term(h / 3.0, One, 1.0, d4)?;
    let k21 = r.phi_term(2.0 * h / 3.0, One, 1.0, d4)?;
    let k22 = r.phi_term(h, One, 1.0, d4)?;
    let tally = tally.joined(k20.tally).joined(k21.tally).joined(k22.tally);
    let w7 = combine3(59.0 / 300.0, k10, -7.0 / 75.0, k11, 269.0 / 300.0, k12, n);
    let w7 = axpy(w7, 2.0 / 3.0, k20.v, n);
    let w7 = axpy(w7, 2.0 / 3.0, k21.v, n);
    let w7 = axpy(w7, 2.0 / 3.0, k22.v, n);
    let u7 = add(u, scale(w7, h, n), n);
    exp4_7(r, tally, k12, k20.v, k21.v, k22.v, u7)
}

fn exp4_7(
    r: &Replay<'_>,
    tally: Tally,
    k12: Vector,
    k20: Vector,
    k21: Vector,
    k22: Vector,
    u7: Vector,
) -> Option<Reached>
    requires { 1 ≤ r.now.count }
    ensures { stand result ≡ reached r.now 1 tally (exp4_7 r.now.point r.now.jacobian.now k12 k20 k21 k22 u7) }
{
    let Point {
        n,
        time: t,
        step: h,
        state: u,
        f0,
        ..
    } = r.point;
    let question = asked(u7, t + h)?;
    if r.count == 1 {
        return Some(question);
    }
    let d7 = r.remainder(u7, 1);
    let k7 = r.phi_term(h / 3.0, One, 1.0, d7)?;
    let increment = axpy(k12, 1.0, k20, n);
    let increment = axpy(increment, -4.0 / 3.0, k21, n);
    let increment = axpy(increment, 1.0, k22, n);
    let increment = axpy(increment, 1.0 / 6.0, k7.v, n);
    let x = add(u, scale(increment, h, n), n);
    ended(tally.joined(k7.tally), x, [0.0; PLACES])
}

// ---- epirk4s3

// What tells its two variants apart.
#[derive(Clone, Copy)]
struct Weights4s3 {
    c2: f64,
    c3: f64,
    r2c: f64,
    r3c: f64,
    q2c: f64,
    q3c: f64,
}

#[inline(never)]
pub fn epirk4s3_a(r: &Replay<'_>) -> Option<Reached>
    ensures { stand result ≡ in32 (replay_from r.now 0 (epirk4s3_a r.now.point.n r.now.jacobian.now r.now.point.state r.now.point.time r.now.point.step r.now.point.f0)) }
{
    let Point { step: h, f0, .. } = r.point;
    let k = Weights4s3 {
        c2: 0.5,
        c3: 2.0 / 3.0,
        r2c: 32.0,
        r3c: -13.5,
        q2c: -144.0,
        q3c: 81.0,
    };
    let k2 = r.phi_term(k.c2 * h, One, k.c2 * h, f0)?;
    let k3 = r.phi_term_if(1 <= r.count, k.c3 * h, One, k.c3 * h, f0)?;
    epirk4s3(r, k, k2, k3)
}

#[inline(never)]
pub fn epirk4s3_b(r: &Replay<'_>) -> Option<Reached>
    ensures { stand result ≡ in32 (replay_from r.now 0 (epirk4s3_b r.now.point.n r.now.jacobian.now r.now.point.state r.now.point.time r.now.point.step r.now.point.f0)) }
{
    let Point { step: h, f0, .. } = r.point;
    let k = Weights4s3 {
        c2: 0.5,
        c3: 0.75,
        r2c: 54.0,
        r3c: -16.0,
        q2c: -324.0,
        q3c: 144.0,
    };
    let d2 = 8.0 * float::powi2(k.c2 * h) / (3.0 * h);
    let k2 = r.phi_term(k.c2 * h, Two, d2, f0)?;
    let d3 = 16.0 * float::powi2(k.c3 * h) / (9.0 * h);
    let k3 = r.phi_term_if(1 <= r.count, k.c3 * h, Two, d3, f0)?;
    epirk4s3(r, k, k2, k3)
}

// What the two variants share; k2 and k3 are their first two phi terms, the second with its vector from the first answer on.
fn epirk4s3(r: &Replay<'_>, k: Weights4s3, k2: Action, k3: Action) -> Option<Reached>
    ensures { (p : Tried) → taken k3 ≡ if_wanted (leb 1 r.now.count) p → stand result ≡ in32 (replay_from r.now 0
        (epirk4s3 r.now.point.n r.now.jacobian.now r.now.point.state r.now.point.time r.now.point.step r.now.point.f0 (taken k2) p k.c2 k.c3 k.r2c k.r3c k.q2c k.q3c)) }
{
    let Point { n, state: u, .. } = r.point;
    let tally = k2.tally.joined(k3.tally);
    let u2 = add(u, k2.v, n);
    let u3 = add(u, k3.v, n);
    epirk4s3_2(r, k, tally, u2, u3)
}

fn epirk4s3_2(
    r: &Replay<'_>,
    k: Weights4s3,
    tally: Tally,
    u2: Vector,
    u3: Vector,
) -> Option<Reached>
    ensures { stand result ≡ reached r.now 0 tally (epirk4s3_2 r.now.point r.now.jacobian.now u2 u3 k.c2 k.c3 k.r2c k.r3c k.q2c k.q3c) }
{
    let Point {
        time: t,
        step: h,
        ..
    } = r.point;
    let question = asked(u2, t + k.c2 * h)?;
    if r.count == 0 {
        return Some(question);
    }
    let r2 = r.remainder(u2, 0);
    epirk4s3_3(r, k, tally, r2, u3)
}

fn epirk4s3_3(
    r: &Replay<'_>,
    k: Weights4s3,
    tally: Tally,
    r2: Vector,
    u3: Vector,
) -> Option<Reached>
    requires { 1 ≤ r.now.count }
    ensures { stand result ≡ reached r.now 1 tally (epirk4s3_3 r.now.point r.now.jacobian.now r2 u3 k.c3 k.r2c k.r3c k.q2c k.q3c) }
{
    let Point {
        n,
        time: t,
        step: h,
        state: u,
        f0,
        ..
    } = r.point;
    let question = asked(u3, t + k.c3 * h)?;
    if r.count == 1 {
        return Some(question);
    }
    let r3 = r.remainder(u3, 1);
    let square = float::powi2(h);
    let cube = float::powi3(h);
    let b4 = combine2(k.r2c / square, r2, k.r3c / square, r3, n);
    let b5 = combine2(k.q2c / cube, r2, k.q3c / cube, r3, n);
    let s = r.phi_term(h, One, h, f0)?;
    let s = r.add_term(s, 1.0, h, Three, cube, b4)?;
    let s = r.add_term(s, 1.0, h, Four, float::powi4(h), b5)?;
    ended(tally.joined(s.tally), add(u, s.v, n), [0.0; PLACES])
}

// ---- epirk5s3

#[inline(never)]
pub fn epirk5s3(r: &Replay<'_>) -> Option<Reached>
    ensures { stand result ≡ in32 (replay_from r.now 0 (epirk5s3 r.now.point.n r.now.jacobian.now r.now.point.state r.now.point.time r.now.point.step r.now.point.f0)) }
{
    let Point {
        n,
        step: h,
        state: u,
        f0,
        ..
    } = r.point;
    let c2 = 48.0 / 55.0;
    let d1 = (55.0 / (8.0 * h)) * float::powi2(c2 * h);
    let k2 = r.phi_term(c2 * h, Two, d1, f0)?;
    let d2 = (-3025.0 / (192.0 * h * h)) * float::powi3(c2 * h);
    let k2 = r.add_term(k2, 1.0, c2 * h, Three, d2, f0)?;
    let u2 = add(u, k2.v, n);
    epirk5s3_2(r, k2.tally, u2)
}

fn epirk5s3_2(r: &Replay<'_>, tally: Tally, u2: Vector) -> Option<Reached>
    ensures { stand result ≡ reached r.now 0 tally (epirk5s3_2 r.now.point r.now.jacobian.now u2) }
{
    let Point {
        n,
        time: t,
        step: h,
        state: u,
        f0,
        ..
    } = r.point;
    let c2 = 48.0 / 55.0;
    let question = asked(u2, t + c2 * h)?;
    if r.count == 0 {
        return Some(question);
    }
    let r2 = r.remainder(u2, 0);
    let c3 = 4.0 / 9.0;
    let k3 = r.phi_term(c3 * h, One, (53.0 / 5.0) * (c3 * h), f0)?;
    let d3 = (-648.0 / (5.0 * h)) * float::powi2(c3 * h);
    let k3 = r.add_term(k3, 1.0, c3 * h, Two, d3, f0)?;
    let e3 = 32065.0 / (1152.0 * h * h);
    let b3 = combine2(2916.0 / (5.0 * h * h), f0, e3, r2, n);
    let k3 = r.add_term(k3, 1.0, c3 * h, Three, float::powi3(c3 * h), b3)?;
    let u3 = add(u, k3.v, n);
    let tally = tally.joined(k3.tally);
    epirk5s3_3(r, tally, r2, u3)
}

fn epirk5s3_3(r: &Replay<'_>, tally: Tally, r2: Vector, u3: Vector) -> Option<Reached>
    requires { 1 ≤ r.now.count }
    ensures { stand result ≡ reached r.now 1 tally (epirk5s3_3 r.now.point r.now.jacobian.now r2 u3) }
{
    let Point {
        n,
        time: t,
        step: h,
        state: u,
        f0,
        ..
    } = r.point;
    let c3 = 4.0 / 9.0;
    let question = asked(u3, t + c3 * h)?;
    if r.count == 1 {
        return Some(question);
    }
    let r3 = r.remainder(u3, 1);
    let cube = float::powi3(h);
    let s2 = -166375.0 / (61056.0 * h * h);
    let s3 = 2187.0 / (106.0 * h * h);
    let b4 = combine2(s2, r2, s3, r3, n);
    let q2 = 499125.0 / (27136.0 * cube);
    let q3 = -2187.0 / (106.0 * cube);
    let b5 = combine2(q2, r2, q3, r3, n);
    let k = r.phi_term(h, One, h, f0)?;
    let k = r.add_term(k, 1.0, h, Three, cube, b4)?;
    let k = r.add_term(k, 1.0, h, Four, float::powi4(h), b5)?;
    ended(tally.joined(k.tally), add(u, k.v, n), [0.0; PLACES])
}

// ---- epirk5p

// Its two variants.
#[derive(Clone, Copy)]
enum Variant {
    P1,
    P2,
}

// What tells them apart.
// Kept: b31 and b32 stand for both, though the pass of P1 does not read them: the two are one pass by one set of names, as the definitions have it.
#[derive(Clone, Copy)]
struct Weights5p {
    g11: f64,
    g21: f64,
    g32: f64,
    g33: f64,
    a22: f64,
    b2: f64,
    b31: f64,
    b32: f64,
    b33: f64,
    second_order: Order,
    variant: Variant,
}

#[inline(never)]
pub fn epirk5p1(r: &Replay<'_>) -> Option<Reached>
    ensures { stand result ≡ in32 (replay_from r.now 0 (epirk5p1 r.now.point.n r.now.jacobian.now r.now.point.state r.now.point.time r.now.point.step r.now.point.f0)) }
{
    let k = Weights5p {
        g11: 0.3512959269505819,
        g21: 0.8440547201165713,
        g32: 0.7111109536436687,
        g33: 0.6237811195337149,
        a22: 2.377391534041867,
        b2: 1.7897526753236234,
        b31: 0.0,
        b32: 0.0,
        b33: 9.358546505792617,
        second_order: One,
        variant: Variant::P1,
    };
    epirk5p(r, k)
}

#[inline(never)]
pub fn epirk5p2(r: &Replay<'_>) -> Option<Reached>
    ensures { stand result ≡ in32 (replay_from r.now 0 (epirk5p2 r.now.point.n r.now.jacobian.now r.now.point.state r.now.point.time r.now.point.step r.now.point.f0)) }
{
    let k = Weights5p {
        g11: 0.46629408528088196,
        g21: 0.8821791265336387,
        g32: 0.9207491648814003,
        g33: 0.7979156183266452,
        a22: 2.8062037328933126,
        b2: 2.528063102562463,
        b31: -0.12848678265700557,
        b32: -0.16102803317280918,
        b33: 5.267263316169096,
        second_order: Two,
        variant: Variant::P2,
    };
    epirk5p(r, k)
}

// x to the first or to the second.
fn powi(x: f64, k: Order) -> f64
    ensures { result ≡ powi x (order_number k) }
{
    match k {
        Two => float::powi2(x),
        _ => x,
    }
}

// What the second variant divides by, and the first does not.
fn divisor(variant: Variant, h: f64) -> f64
    ensures { result ≡ cond (is_second variant) h (num 1) }
{
    match variant {
        Variant::P1 => 1.0,
        Variant::P2 => h,
    }
}

fn epirk5p(r: &Replay<'_>, k: Weights5p) -> Option<Reached>
    ensures { stand result ≡ in32 (replay_from r.now 0 (epirk5p r.now.point.n r.now.jacobian.now r.now.point.state r.now.point.time r.now.point.step r.now.point.f0
        k.g11 k.g21 k.g32 k.g33 k.a22 k.b2 k.b31 k.b32 k.b33 (order_number k.second_order) (is_second k.variant))) }
{
    let Point {
        n,
        step: h,
        state: u,
        f0,
        ..
    } = r.point;
    let k11 = r.phi_term(k.g11 * h, One, k.g11 * h, f0)?;
    let k21 = r.phi_term_if(1 <= r.count, k.g21 * h, One, k.g21 * h, f0)?;
    let k31 = r.phi_term_if(2 <= r.count, h, One, h, f0)?;
    let tally = k11.tally.joined(k21.tally).joined(k31.tally);
    let u1 = add(u, k11.v, n);
    epirk5p_1(r, k, tally, k21.v, k31.v, u1)
}

fn epirk5p_1(
    r: &Replay<'_>,
    k: Weights5p,
    tally: Tally,
    k21: Vector,
    k31: Vector,
    u1: Vector,
) -> Option<Reached>
    ensures { stand result ≡ reached r.now 0 tally (epirk5p_1 r.now.point r.now.jacobian.now k21 k31 u1
        k.g11 k.g21 k.g32 k.g33 k.a22 k.b2 k.b31 k.b32 k.b33 (order_number k.second_order) (is_second k.variant)) }
{
    let Point {
        n,
        time: t,
        step: h,
        state: u,
        ..
    } = r.point;
    let question = asked(u1, t + k.g11 * h)?;
    if r.count == 0 {
        return Some(question);
    }
    let r1 = r.remainder(u1, 0);
    let power = powi(k.g32 * h, k.second_order);
    let k2 = r.phi_term(k.g32 * h, k.second_order, power, r1)?;
    let u2 = axpy(add(u, k21, n), k.a22 / divisor(k.variant, h), k2.v, n);
    let tally = tally.joined(k2.tally);
    epirk5p_2(r, k, tally, k31, r1, k2.v, u2)
}

fn epirk5p_2(
    r: &Replay<'_>,
    k: Weights5p,
    tally: Tally,
    k31: Vector,
    r1: Vector,
    k2: Vector,
    u2: Vector,
) -> Option<Reached>
    requires { 1 ≤ r.now.count }
    ensures { stand result ≡ reached r.now 1 tally (epirk5p_2 r.now.point r.now.jacobian.now k31 r1 k2 u2 k.g21 k.g33 k.b2 k.b31 k.b32 k.b33 (is_second k.variant)) }
{
    let Point {
        n,
        time: t,
        step: h,
        state: u,
        ..
    } = r.point;
    let question = asked(u2, t + k.g21 * h)?;
    if r.count == 1 {
        return Some(question);
    }
    let r2 = r.remainder(u2, 1);
    let dr = axpy(r2, -2.0, r1, n);
    let output = axpy(add(u, k31, n), k.b2 / divisor(k.variant, h), k2, n);
    epirk5p_end(r, k, tally, dr, output)
}

// epirk5p's output.
fn epirk5p_end(
    r: &Replay<'_>,
    k: Weights5p,
    tally: Tally,
    dr: Vector,
    output: Vector,
) -> Option<Reached>
    ensures { (count first : ℕ) (answers : List Float) → stand result ≡ in32 (under (report tally) (replay r.now.point.n
        (epirk5p_end r.now.point.n r.now.jacobian.now r.now.point.step k.g33 k.b31 k.b32 k.b33 (is_second k.variant) dr output) count first answers)) }
{
    let Point { n, step: h, .. } = r.point;
    let g33h = k.g33 * h;
    match k.variant {
        Variant::P1 => {
            let term = r.phi_term(g33h, Three, float::powi3(g33h), dr)?;
            let s = after(output, k.b33 / (h * h), term, n);
            ended(tally.joined(s.tally), s.v, [0.0; PLACES])
        }
        Variant::P2 => {
            let s = after(output, k.b31 * g33h, r.phi_action(g33h, One, dr)?, n);
            let c2 = k.b32 / h * float::powi2(g33h);
            let s = more(s, c2, r.phi_action(g33h, Two, dr)?, n);
            let c3 = k.b33 / (h * h) * float::powi3(g33h);
            let s = more(s, c3, r.phi_action(g33h, Three, dr)?, n);
            ended(tally.joined(s.tally), s.v, [0.0; PLACES])
        }
    }
}
