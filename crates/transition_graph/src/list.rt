//! A transition graph lists where an action leads.
ghost use Rattle.std.specs.Prelude.{◌≡◌, ◌==◌, ◌&&◌, min, nat_le, map, filter};
ghost use Rattle.std.specs.List.{reduce};

use crate::graph::TransitionGraph;
use crate::link::Link;
use theory::listing::Listing;

// The smallest word, not below the least, to which a link leads from s by the action. The clause says what the chain
// gives; that this is the smallest such word is what `next` says.
fn smallest_end(links: &[Link], s: u32, a: u32, least: u32) -> Option<u32>
    ensures { result ≡ reduce min (map (λ link. link.to)
        (filter (λ link. link.from == s && (link.action == a && nat_le least link.to)) links.now)) }
{
    links
        .iter()
        .filter(|link| link.from == s && link.action == a && link.to >= least)
        .map(|link| link.to)
        .min()
}

impl Listing for TransitionGraph {
    fn next(&self, s: u32, a: u32, least: u32) -> Option<u32> {
        smallest_end(&self.links, s, a, least)
    }
}
