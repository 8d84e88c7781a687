ghost use Rattle.std.specs.Prelude.{◌≡◌, ◌++◌, [], ◌∷◌, true, List, length, suc};
ghost use Rattle.cg_base.specs.declared.weighted.Weighted.{Weighted};
ghost use Rattle.cg_base.specs.Sets.{has};
ghost use Rattle.cg_action.specs.declared.action.Action.{Action};
ghost use Rattle.cg_members.specs.Servers.{after_green, members_of};
ghost use Rattle.cg_members.specs.Laws.{AreApart, LinesNeverFall};

/// One green action more is one step of the fold more.
pub fn members_follow_greens()
    ensures { (set : List Weighted) (greens : List Action) (action : Action) →
        members_of set (greens ++ action ∷ []) ≡ after_green (members_of set greens) (suc (length greens)) action }
{}

/// Whatever becomes green: no server has left, and no line is above the number of green actions.
pub fn servers_stay_apart()
    ensures { (set : List Weighted) (greens : List Action) → AreApart (members_of set greens) (length greens) }
{}

/// A line never falls while its server stays, whatever becomes green.
pub fn lines_never_fall()
    ensures { LinesNeverFall }
{}
