// How wide and deep the machine is.
ghost use Rattle.std.specs.Prelude.{◌≡◌, ◌≤◌, ◌↔◌, IsSome, IfSome};
ghost use Rattle.diva_core.specs.Timed.{Config, default_config};
ghost use Rattle.diva_core.specs.Machine.{IsConfig, config_in_range, least_config, most_config};

use std::marker::Model;

/// The machine's numbers: the claims accepted and judged in a cycle at most (1 to 4), the claims
/// pending at most (8 to 64), the owed stores at most (1 to 6), the watchdog's limit in
/// cycles (16 to 1024), and how many cycles there are from one store that memory's port takes to the next
/// (1 to 6).
#[derive(Clone, Copy, Debug)]
pub struct Config {
    width: u32,
    window: u32,
    stores: u32,
    limit: u32,
    port: u32,
}

impl Model for Config {
    ghost use Rattle.diva_core.specs.Timed.{Config};
    ghost use Rattle.diva_core.specs.Machine.{IsConfig};

    ghost Value = { Config };

    ghost view = { λ c. record { width = c.width; window = c.window; stores = c.stores; limit = c.limit; port = c.port } };

    ghost invariant = { λ c. IsConfig (record { width = c.width; window = c.window; stores = c.stores; limit = c.limit; port = c.port }) };

    ghost inverse = { λ z. record { width = z.width; window = z.window; stores = z.stores; limit = z.limit; port = z.port } };
}

impl Default for Config {
    ghost is_default = { λ c. c ≡ default_config };

    /// The numbers of a machine for which no others are asked: width 2, window 16, stores 4, limit 64, port 1.
    fn default() -> Self {
        Config {
            width: 2,
            window: 16,
            stores: 4,
            limit: 64,
            port: 1,
        }
    }
}

impl Config {
    /// The machine's numbers `n` (width, 1 to 4), `q` (window, 8 to 64), `s` (stores, 1 to 6) and `w` (the
    /// watchdog's limit in cycles, 16 to 1024), with a port that takes a store in each cycle; `None` exactly where one
    /// of them is out of its range.
    #[tactic(auto, unfolding(crate::specs::Machine::config_in_range))]
    pub fn new(n: u32, q: u32, s: u32, w: u32) -> Option<Config>
        ensures ranges { IsSome result ↔ IsConfig (record { width = n; window = q; stores = s; limit = w; port = 1 }) }
        ensures value { IfSome result (λ c. c ≡ record { width = n; window = q; stores = s; limit = w; port = 1 }) }
        ensures checked { result ≡ config_in_range (record { width = n; window = q; stores = s; limit = w; port = 1 }) }
    {
        let in_range = (1..=4).contains(&n)
            && (8..=64).contains(&q)
            && (1..=6).contains(&s)
            && (16..=1024).contains(&w);
        if in_range {
            Some(Config {
                width: n,
                window: q,
                stores: s,
                limit: w,
                port: 1,
            })
        } else {
            None
        }
    }

    /// The same numbers with a port that takes a store in those cycles alone whose number `p` divides (1 to 6); `None`
    /// exactly where `p` is out of its range.
    #[tactic(auto, unfolding(crate::specs::Machine::config_in_range))]
    pub fn with_port(self, p: u32) -> Option<Config>
        ensures ranges { IsSome result ↔ ((least_config.port ≤ p) × (p ≤ most_config.port)) }
        ensures value { IfSome result (λ c. c ≡ record self { port = p }) }
        ensures checked { result ≡ config_in_range (record self { port = p }) }
    {
        if (1..=6).contains(&p) {
            Some(Config { port: p, ..self })
        } else {
            None
        }
    }

    /// The claims accepted and judged in a cycle at most.
    pub fn width(&self) -> u32
        ensures value { result ≡ self.now.width }
        ensures config { IsConfig self.now }
    {
        self.width
    }

    /// The claims pending at most.
    pub fn window(&self) -> u32
        ensures { result ≡ self.now.window }
    {
        self.window
    }

    /// The owed stores at most.
    pub fn stores(&self) -> u32
        ensures { result ≡ self.now.stores }
    {
        self.stores
    }

    /// The watchdog's limit in cycles.
    pub fn limit(&self) -> u32
        ensures { result ≡ self.now.limit }
    {
        self.limit
    }

    /// How many cycles there are from one store that memory's port takes to the next.
    pub fn port(&self) -> u32
        ensures { result ≡ self.now.port }
    {
        self.port
    }
}
