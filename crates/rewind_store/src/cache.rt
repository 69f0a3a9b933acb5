//! A cache of worlds, by their ticks.

ghost use Rattle.std.specs.Prelude.{◌≡◌, nat_eq, if◌then◌else◌};
ghost use Rattle.std.specs.Map.{lookup};
ghost use Rattle.lru.specs.LruCache.{lru_cache, promoted, put_entries};

use game_trait::{Game, Tick};
use lru::LruCache;

/// A twin of the world that is cached for a tick, which becomes the most recently used.
pub fn recall<G: Game>(cache: &mut LruCache<Tick, G>, t: Tick) -> Option<G>
    ensures found { result ≡ lookup (nat_eq t) cache.old.entries }
    ensures entries { cache.new
        ≡ lru_cache (promoted (nat_eq t) cache.old.entries) cache.old.cap }
{
    match cache.get(&t) {
        Some(world) => Some(world.twin()),
        None => None,
    }
}

/// Puts a world in front as that of a tick, and tells whether memory was found; else the cache is as
/// before.
pub fn remember<G: Game>(cache: &mut LruCache<Tick, G>, t: Tick, world: G) -> bool
    ensures { cache.new
        ≡ (if result
        then lru_cache (put_entries nat_eq cache.old t world) cache.old.cap
        else cache.old) }
{
    match cache.put(t, world) {
        Ok(_) => true,
        Err(_) => false,
    }
}
