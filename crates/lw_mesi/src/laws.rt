//! Laws of the caches' definitions: what holds before any request, and what every request preserves. A law is a
//! function without a result, whose contract states the law. A proof uses the law by calling the function.
ghost use Rattle.std.specs.Prelude.{◌≡◌, ◌≤◌, ℕ, List, Option};
ghost use Rattle.lw_base.specs.Limits.{most_threads};
ghost use Rattle.lw_memory.specs.declared.request.Request.{Request};
ghost use Rattle.lw_mesi.specs.declared.protocol.Protocol.{Protocol};
ghost use Rattle.lw_mesi.specs.CacheLines.{Caches, empty_caches, coherent_words};
ghost use Rattle.lw_mesi.specs.Snooping.{ProtocolTransition};
ghost use Rattle.lw_mesi.specs.Protocols.{table_of};
ghost use Rattle.lw_mesi.specs.Coherence.{SatisfiesProtocol};

/// States that empty caches are coherent, in states of each protocol, and that their coherent words are memory's.
pub fn empty_caches_are_coherent()
    ensures kept { (p : Protocol) (cpus : ℕ) (words : List ℕ) → cpus ≤ most_threads → SatisfiesProtocol p (empty_caches cpus words) }
    ensures content { (cpus : ℕ) (words : List ℕ) → coherent_words (empty_caches cpus words) ≡ words }
{}

/// States that every request that is served (a load, a store, an update or an eviction) preserves
/// coherence, in each protocol. If there is a copy in M or E, there is no other; at most one copy is in M or O; every
/// copy holds the coherent word, which is the same before and after an eviction or a load; and the copies are in
/// states of the protocol.
pub fn requests_preserve_coherence()
    ensures { (p : Protocol) (m n : Caches) (r : Request) (a : Option ℕ)
        → SatisfiesProtocol p m → ProtocolTransition (table_of p) m r a n → SatisfiesProtocol p n }
{}
