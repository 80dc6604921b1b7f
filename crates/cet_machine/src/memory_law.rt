//! Laws of memory, each the contract of a function that does nothing. They hold of every list of regions, in whatever order.

ghost use Rattle.cet_machine.specs.MemoryLaws.{StoredKeepsShape, SameShapeHeld, SameShapeDisjoint, ReadWhereHeld, HeldWhereRead, StoredWhereHeld, HeldWhereStored, StoredKeepsOtherKinds, StoredKeepsReadsOfOtherKinds, StoredKeepsOtherRegions, StoredKeepsReadsElsewhere, StoredIsFetched, StoredIsRead, StoredIsReadWithin, LoadAfterStore, LoadElsewhereAfterStore, LoadOfOtherKindAfterStore, ShadowLoadAfterStore, CodeAfterStore, ShadowLoadAfterShadowStore, ShadowLoadElsewhereAfterShadowStore, LoadElsewhereAfterShadowStore, LoadOfOtherKindAfterShadowStore, CodeAfterShadowStore, OneHolder, HeldWithin, PlacedWhereFree, FreeWherePlaced, LegalIsPlaced, LegalIsApart, PlaceKeepsDisjoint, PlaceKeepsOthers, PlaceKeepsHeld, PlacedIsZero, LoadFits, StoredKeepsBytes, PlaceKeepsBytes};

/// Nothing that is stored changes the addresses or the kind of a region, so the same intervals are held afterwards, and
/// disjoint regions stay disjoint.
pub fn shape()
    ensures kept { StoredKeepsShape }
    ensures held { SameShapeHeld }
    ensures disjoint { SameShapeDisjoint }
{}

/// Bytes are loaded and stored where one region of an allowed kind holds their whole interval, and nowhere else.
pub fn access()
    ensures read { ReadWhereHeld }
    ensures read_only_there { HeldWhereRead }
    ensures stored { StoredWhereHeld }
    ensures stored_only_there { HeldWhereStored }
{}

/// A store changes no region of a kind that it may not write, no other region, and no byte apart from those that it writes.
pub fn elsewhere()
    ensures other_kinds { StoredKeepsOtherKinds }
    ensures other_regions { StoredKeepsOtherRegions }
    ensures reads_of_other_kinds { StoredKeepsReadsOfOtherKinds }
    ensures reads { StoredKeepsReadsElsewhere }
{}

/// What was stored is read, whole and in part, and fetched where it was put into code.
pub fn read_back()
    ensures whole { StoredIsRead }
    ensures part { StoredIsReadWithin }
    ensures code { StoredIsFetched }
{}

/// Loads, loads by the shadow stack and fetches after a store.
pub fn after_store()
    ensures load { LoadAfterStore }
    ensures load_elsewhere { LoadElsewhereAfterStore }
    ensures load_of_other_kind { LoadOfOtherKindAfterStore }
    ensures shadow_load { ShadowLoadAfterStore }
    ensures code { CodeAfterStore }
{}

/// Loads, loads by the shadow stack and fetches after a store by the shadow stack.
pub fn after_shadow_store()
    ensures shadow_load { ShadowLoadAfterShadowStore }
    ensures shadow_load_elsewhere { ShadowLoadElsewhereAfterShadowStore }
    ensures load_elsewhere { LoadElsewhereAfterShadowStore }
    ensures load_of_other_kind { LoadOfOtherKindAfterShadowStore }
    ensures code { CodeAfterShadowStore }
{}

/// Of disjoint regions one alone holds an interval, wherever in the list it stands, and it holds each part of it.
pub fn holder()
    ensures one { OneHolder }
    ensures within { HeldWithin }
{}

/// A region is placed on each range of pages whose addresses no region has, and nowhere else. What a system call may map can be
/// placed, and a gap stays free on both sides of it.
pub fn place()
    ensures where_free { PlacedWhereFree }
    ensures only_there { FreeWherePlaced }
    ensures legal { LegalIsPlaced }
    ensures apart { LegalIsApart }
{}

/// A new region keeps regions disjoint and each access to the others as it was. It has bytes 0.
pub fn after_place()
    ensures disjoint { PlaceKeepsDisjoint }
    ensures others { PlaceKeepsOthers }
    ensures held { PlaceKeepsHeld }
    ensures zero { PlacedIsZero }
{}

/// Bytes are below 256 and stay so, and a number loaded from n of them is below 256 to the n.
pub fn bytes()
    ensures load { LoadFits }
    ensures stored { StoredKeepsBytes }
    ensures placed { PlaceKeepsBytes }
{}
