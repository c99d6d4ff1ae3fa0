//! What planned changes lead to, as contracts (`btr_cur_pessimistic_insert`, `btr_cur_pessimistic_delete`).

ghost use Rattle.std.specs.Prelude.{◌≡◌, ℕ, ◌<◌, ◌≤◌, None, true};
ghost use Rattle.ib_map.specs.Keys.{MapKey};
ghost use Rattle.ib_map.specs.Pairs.{put, without, value_at};
ghost use Rattle.ib_page.specs.declared.space.TheConstants.{MAPPED_PAGES};
ghost use Rattle.ib_walk.specs.Pages.{PageMemory};
ghost use Rattle.ib_walk.specs.Trees.{content_of, height_of, most_height, IsLawful};
ghost use Rattle.ib_walk.specs.Full.{need_of, is_root_full, free_of, chosen};
ghost use Rattle.ib_plans.specs.Marks.{ticked};
ghost use Rattle.ib_plans.specs.Insert.{planned_insert};
ghost use Rattle.ib_plans.specs.Delete.{planned_delete};
ghost use Rattle.ib_plans.specs.Leads.{LeadsTo};

/// The law of planned inserts: with as many of the lowest free pages as are needed, and no root raised that
/// is as high as it may be, a planned insert of a missing key leads from lawful trees to lawful trees with the pair put in.
pub fn insert_law()
    ensures { (memory : PageMemory) (bits : ℕ → ℕ) (pages roots root : ℕ) (key : MapKey) (value : ℕ)
        → IsLawful memory bits roots → pages ≤ MAPPED_PAGES → 0 < root → root ≤ roots
        → value_at key (content_of memory root) ≡ None
        → need_of memory key root ≤ free_of bits pages
        → (is_root_full memory key root ≡ true → height_of memory root < most_height roots)
        → let g = planned_insert memory bits (chosen bits pages (need_of memory key root)) key value root in
        LeadsTo memory (ticked memory g.touched g.memory) g.bits roots root g.touched (put key value (content_of memory root)) }
{}

/// The law of planned deletes: a planned delete leads from lawful trees to lawful trees without the key.
pub fn delete_law()
    ensures { (memory : PageMemory) (bits : ℕ → ℕ) (roots root : ℕ) (key : MapKey)
        → IsLawful memory bits roots → 0 < root → root ≤ roots
        → let s = planned_delete memory bits key root in
        LeadsTo memory (ticked memory s.touched s.memory) s.bits roots root s.touched (without key (content_of memory root)) }
{}
