use crate::{Contexts, NoContext, Object1, Object2};
use jo_ids::{ObjKey, SiteId};

fn shown<X: Contexts>(contexts: &X, context: X::C) -> (u8, u32, u32) {
    let sites = contexts.sites(context);
    (sites.len, sites.first.number(), sites.second.number())
}

/// The context of a method that is called at the site 1 on an object which a method in the context `maker` makes.
fn called_on<X: Contexts>(contexts: &X, maker: X::C, site: u32) -> X::C {
    let site = SiteId::of(site);
    let object = ObjKey {
        site,
        context: contexts.heap(maker, site),
    };
    contexts.enter(contexts.root(), SiteId::of(1), Some(object))
}

/// A method of an object that main makes at 3, one of an object that the former makes at 5, one of an object that
/// this makes at 7, and what the last calls without a receiver.
fn nested<X: Contexts>(contexts: &X) -> [(u8, u32, u32); 4] {
    let third = called_on(contexts, contexts.root(), 3);
    let fifth = called_on(contexts, third, 5);
    let seventh = called_on(contexts, fifth, 7);
    let last = contexts.enter(seventh, SiteId::of(2), None);
    [
        shown(contexts, third),
        shown(contexts, fifth),
        shown(contexts, seventh),
        shown(contexts, last),
    ]
}

#[test]
fn without_contexts_all_are_one(rt: HostRuntime) {
    assert_eq!(rt; shown(&NoContext, NoContext.root()), (0, 0, 0));
    assert_eq!(rt; nested(&NoContext), [(0, 0, 0); 4]);
}

#[test]
fn one_site_tells_receivers_apart(rt: HostRuntime) {
    assert_eq!(rt; shown(&Object1, Object1.root()), (0, 0, 0));
    assert_eq!(rt;
        nested(&Object1),
        [(1, 3, 0), (1, 5, 0), (1, 7, 0), (1, 7, 0)]
    );
    let context = called_on(&Object1, Object1.root(), 3);
    assert_eq!(rt;
        shown(&Object1, Object1.heap(context, SiteId::of(4))),
        (0, 0, 0)
    );
}

#[test]
fn two_sites_tell_the_makers_of_receivers_apart(rt: HostRuntime) {
    assert_eq!(rt; shown(&Object2, Object2.root()), (0, 0, 0));
    assert_eq!(rt;
        nested(&Object2),
        [(1, 3, 0), (2, 5, 3), (2, 7, 5), (2, 7, 5)]
    );
    let context = called_on(&Object2, called_on(&Object2, Object2.root(), 3), 5);
    assert_eq!(rt;
        shown(&Object2, Object2.heap(context, SiteId::of(4))),
        (1, 5, 0)
    );
}
