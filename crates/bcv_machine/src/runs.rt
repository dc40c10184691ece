ghost use Rattle.std.specs.Prelude.{◌≡◌, ℕ, List, [], ◌∷◌, ◌++◌};
ghost use Rattle.bcv_base.specs.Image.{Page};
ghost use Rattle.bcv_model.specs.declared.ask.Ask.TheVariants as ask;
ghost use Rattle.bcv_model.specs.declared.reply.Reply.TheVariants as reply;
ghost use Rattle.bcv_machine.specs.State.{State};
ghost use Rattle.bcv_machine.specs.Scripts.{Plays, asks, steps, puts, id_of, contends, is_contended, numbers_read, loses_an_answer, is_resolved, goes_on_reading, crashes_later, crashes_in_a_commit, comes_up_without, comes_up_with, holds_one, holds_two, is_not_held, commits_twice, conflicts, gives_up, replaces, finds_nothing, cleans_up, reads_again, is_gone, is_about_to_put, crashes_after_put, crashes_before_put, comes_up_pending, is_voided};

/// Two clients contend: client 1 copies a database, and before each of its eight puts client 2 publishes another copy.
/// The eighth put answers the eight numbers that were read, in order. No other numbers, no further try and no version
/// are accepted.
pub fn contention_over_copies()
    ensures accepted { (p : Page) → (b : State) × Plays
        (contends p ++ is_contended numbers_read) b }
    ensures numbers { (p : Page) (numbers : List ℕ) (b : State)
        → Plays (contends p ++ is_contended numbers) b → numbers ≡ numbers_read }
    ensures no_ninth_try { (p : Page) (left : ℕ) (b : State)
        → Plays (contends p ++ steps 1 (reply.Working left) ∷ []) b → ⊥ }
    ensures not_published { (p : Page) (k : ℕ) (b : State) → Plays (contends p ++ puts 1 k ∷ []) b
        → ⊥ }
{}

/// An upload's answer is lost, and another client publishes twice over the same database before the client resolves:
/// its version is found by its id, and by nothing else. It has no commits then, and a poll shows it the latest page.
pub fn lost_answer_is_resolved()
    ensures accepted { (b : State) × Plays (loses_an_answer ++ is_resolved ++ goes_on_reading) b }
    ensures version { (k : ℕ) (b : State)
        → Plays (loses_an_answer ++ steps 1 (reply.Resolved k) ∷ []) b → k ≡ 3 }
    ensures not_voided { (b : State) → Plays (loses_an_answer ++ steps 1 reply.Voided ∷ []) b → ⊥ }
{}

/// A commit that was acknowledged is there after a crash. One during which the fuse burns, at whichever device call and
/// with whichever image, is there whole or not at all.
pub fn crash_around_a_commit()
    ensures kept { (b : State) × Plays (crashes_later ++ comes_up_with 1) b }
    ensures never_lost { (b : State) → Plays (crashes_later ++ comes_up_without) b → ⊥ }
    ensures may_be_absent { (calls image : ℕ) → (b : State)
        × Plays (crashes_in_a_commit calls image ++ comes_up_without) b }
    ensures may_be_whole { (calls image : ℕ) → (b : State)
        × Plays (crashes_in_a_commit calls image ++ comes_up_with 1) b }
    ensures once { (calls image commits : ℕ) (b : State)
        → Plays (crashes_in_a_commit calls image ++ comes_up_with commits) b → commits ≡ 1 }
{}

/// A transaction holds two blocks of three, and a cache of two slots is full for the third until one is freed. The cache
/// is not full before, and a page of a freed block is not shown.
pub fn pins_fill_the_cache()
    ensures accepted { (b : State) × Plays (holds_one ++ holds_two ++ is_not_held) b }
    ensures not_full_yet { (b : State)
        → Plays (holds_one ++ asks 1 (ask.Hold 1 3) reply.CacheFull ∷ []) b → ⊥ }
    ensures not_held_any_more { (bytes : Page) (b : State)
        → Plays ((holds_one ++ holds_two) ++ asks 1 (ask.Look 1 1) (reply.Page bytes) ∷ []) b → ⊥ }
{}

/// Two clients commit over one version: the second upload is refused with both tags, and never goes on. After it gave its
/// commit up, the client reads what the other one published.
pub fn second_upload_conflicts()
    ensures accepted { (b : State) × Plays (commits_twice ++ conflicts 4 6 ++ gives_up) b }
    ensures tags { (mine theirs : ℕ) (b : State) → Plays (commits_twice ++ conflicts mine theirs) b
        → (id_of mine).0 ++ (id_of theirs).0 ≡ (id_of 4).0 ++ (id_of 6).0 }
    ensures no_merge { (left : ℕ) (b : State)
        → Plays (commits_twice ++ steps 2 (reply.Working left) ∷ []) b → ⊥ }
{}

/// A cleanup deletes a replaced block once the retention since a version has passed, and not a second before; a
/// transaction of another client over that version then finds the block gone, and not before the cleanup.
pub fn cleanup_after_the_retention()
    ensures too_early { (b : State) × Plays (replaces 99 ++ finds_nothing) b }
    ensures not_earlier { (left : ℕ) (b : State)
        → Plays (replaces 99 ++ steps 1 (reply.Working left) ∷ []) b → ⊥ }
    ensures accepted { (b : State) × Plays (replaces 100 ++ cleans_up ++ reads_again ++ is_gone) b }
    ensures not_gone_yet { (b : State) → Plays ((replaces 99 ++ reads_again) ++ is_gone) b → ⊥ }
{}

/// A client whose fuse burns around an upload's put comes up with the publication pending, or not: after the put it
/// resolves it, or the crash left its done; before the put it is voided, or there never was an intent.
pub fn crash_around_a_publication()
    ensures resolved { (calls image : ℕ)
        → (b : State) × Plays (is_about_to_put calls image ++ crashes_after_put ++ comes_up_pending ++ is_resolved) b }
    ensures done { (calls image : ℕ) → (b : State)
        × Plays (is_about_to_put calls image ++ crashes_after_put ++ comes_up_without) b }
    ensures voided { (calls image : ℕ)
        → (b : State) × Plays (is_about_to_put calls image ++ crashes_before_put ++ comes_up_pending ++ is_voided) b }
    ensures not_intended { (calls image : ℕ) → (b : State)
        × Plays (is_about_to_put calls image ++ crashes_before_put ++ comes_up_with 1) b }
{}
