//! What the definition of a refused head promises. Nothing here runs.

ghost use Rattle.std.specs.Prelude.{◌≡◌, ◌↔◌, ℕ, List, Option, Some, false, true};
ghost use Rattle.std.specs.Net.Addr.{IsLoopbackV4, IsLoopbackV6};
ghost use Rattle.std.specs.Net.Grammar.{IsIpv4Text, IsIpv6Text};
ghost use Rattle.std.specs.declared.net.ipv4_addr.Ipv4Addr.{Ipv4Addr};
ghost use Rattle.std.specs.declared.net.ipv6_addr.Ipv6Addr.{Ipv6Addr};
ghost use Rattle.http_header.specs.FieldValue.{FieldValue};
ghost use Rattle.http_header.specs.HeaderMap.{Entries};
ghost use Rattle.http_exchange.specs.Heads.{refusal_behind, refusal_of, refusal_reply};
ghost use Rattle.http_exchange.specs.Hosts.{host_of, is_loopback_v4, is_loopback_v6};
ghost use Rattle.http_exchange.specs.Keys.{has_key};
ghost use Rattle.http_exchange.specs.declared.access.KeyNeed.TheVariants.{Needed, Waived};
ghost use Rattle.http_exchange.specs.declared.heads.Refusal.TheVariants.{NoKey};

/// At a service with a key a head without it is refused for that, whatever else it says, and is
/// answered 401. A request that needs none is judged by its `Origin` and its coding alone.
pub fn key_comes_first()
    ensures refused { (key : List ℕ) (port : ℕ) (authority : Option (List ℕ))
        (fields : Entries FieldValue) → has_key key fields ≡ false
        → refusal_of (Some key) Needed port authority fields ≡ Some NoKey }
    ensures page { (key : List ℕ) (port : ℕ) (authority : Option (List ℕ))
        (fields : Entries FieldValue) → refusal_of (Some key) Waived port authority fields
        ≡ refusal_behind port true (host_of authority fields) fields }
    ensures status { (refusal_reply NoKey).status ≡ 401 }
{}

/// A text is one of a loopback address exactly if it writes an address in 127.0.0.0/8, or the address
/// ::1, in any of its spellings (RFC 4291, 2.2).
pub fn loopback_texts()
    ensures v4 { (text : List ℕ) → (is_loopback_v4 text ≡ true)
        ↔ ((a : Ipv4Addr) × IsIpv4Text text a × IsLoopbackV4 a) }
    ensures v6 { (text : List ℕ) → (is_loopback_v6 text ≡ true)
        ↔ ((a : Ipv6Addr) × IsIpv6Text text a × IsLoopbackV6 a) }
{}
