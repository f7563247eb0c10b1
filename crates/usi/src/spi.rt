// SPI on the module: the output latch, a sample's edge, a tick.
ghost use Rattle.std.specs.Prelude.{◌≡◌};
ghost use Rattle.usi.specs.Spi.{register as register_rule, latched as latched_rule, followed as followed_rule};
ghost use Rattle.usi.specs.Spi.{captured as captured_rule, changed as changed_rule, at_edge, edged as edged_rule};
ghost use Rattle.usi.specs.Spi.{sampled as sampled_rule, ticked as ticked_rule};

use crate::Usi;

// The register's value.
fn register(u: Usi) -> u16
    ensures { result ≡ register_rule u }
{
    usi_spi::register(u.usicnt, u.usisrl, u.usisrh)
}

// The latch takes the bit that leaves next, and the enable takes OE.
fn latched(mut u: Usi) -> Usi
    ensures { result ≡ latched_rule u }
{
    let latch = usi_spi::outgoing(u.usictl0, u.usicnt, register(u));
    let enable = usi_registers::output_enable(u.usictl0);
    u.latch = latch;
    u.enable = enable;
    u
}

// With GE=1, and with CKPH=1 before the first edge, the latch follows.
pub(crate) fn followed(u: Usi) -> Usi
    ensures { result ≡ followed_rule u }
{
    if usi_spi::follows(u.usictl0, u.usictl1, u.usickctl, u.usicnt, u.seen, u.scl) {
        return latched(u);
    }
    u
}

// A bit enters the shift register and is counted.
fn captured(mut u: Usi, sdi: bool) -> Usi
    ensures { result ≡ captured_rule sdi u }
{
    let flags = usi_i2c::end_flags(u.usictl1, u.usicnt);
    let count = usi_i2c::count_down(u.usicnt);
    let entered = usi_spi::shifted(u.usictl0, u.usicnt, sdi, register(u));
    let high = usi_spi::high(u.usicnt, u.usisrh, entered);
    let low = usi_spi::low(entered);
    u.usictl1 = flags;
    u.usicnt = count;
    u.usisrl = low;
    u.usisrh = high;
    u
}

// The edge at which the output changes.
fn changed(u: Usi) -> Usi
    ensures { result ≡ changed_rule u }
{
    if usi_i2c::moves_latch(u.usictl0, u.usicnt) {
        return latched(u);
    }
    u
}

// What SCLK's edge does.
fn at_edge(u: Usi, sclk: bool, sdi: bool) -> Usi
    ensures { result ≡ at_edge sclk sdi u }
{
    if usi_spi::captures(u.usictl1, u.usickctl, u.scl, sclk) {
        if usi_registers::counting(u.usicnt) {
            return captured(u, sdi);
        }
        return u;
    }
    if usi_spi::changes(u.usictl1, u.usickctl, u.scl, sclk) {
        return changed(u);
    }
    u
}

// What SCLK did since the last sample.
fn edged(u: Usi, sclk: bool, sdi: bool) -> Usi
    ensures { result ≡ edged_rule sclk sdi u }
{
    if u.seen {
        return at_edge(u, sclk, sdi);
    }
    u
}

// A sample of SCLK and SDI.
pub(crate) fn sampled(u: Usi, sclk: bool, sdi: bool) -> Usi
    ensures { result ≡ sampled_rule sclk sdi u }
{
    followed(edged(u, sclk, sdi).recorded(sclk, sdi))
}

// A tick of the module's clock.
pub(crate) fn ticked(mut u: Usi) -> Usi
    ensures { result ≡ ticked_rule u }
{
    let clocking = usi_i2c::clocks(u.usictl0, u.usictl1, u.usicnt);
    let phase = usi_spi::phase_after(clocking, u.phase);
    u.phase = phase;
    followed(u)
}
