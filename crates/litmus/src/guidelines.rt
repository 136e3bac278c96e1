//! For each guideline that a run may break, a run whose last step breaks it, and no step before does.
ghost use Rattle.std.specs.Prelude.{[], ◌∷◌};
ghost use Rattle.misra_base.specs.declared.guideline.Guideline.TheVariants.{D5_1, D5_2, D5_3, R21_25, R21_26, R22_11, R22_12, R22_13, R22_14, R22_15, R22_16, R22_17, R22_18, R22_19, R22_20};
ghost use Rattle.litmus.specs.Pieces.{goes, answers, in_order};
ghost use Rattle.litmus.specs.Statements.{EndsIn};
ghost use Rattle.litmus.specs.Guidelines.{two_writes, join_of_a_locker, creation_in_a_loop, relaxed_load, timed_lock_of_a_plain_mutex, two_detaches, copied_mutex, automatic_mutex, lock_before_init, lock_after_destroy, end_as_owner, unlock_without_lock, two_locks, two_mutexes_for_one_condition, key_before_creation};

/// Directive 5.1: `main` creates a thread and writes an object, and the thread writes it too.
pub fn data_race()
    ensures { EndsIn D5_1 two_writes (in_order (answers 0 0 ∷ goes 0 ∷ goes 1 ∷ [])) }
{}

/// Directive 5.2: `main` owns a mutex and joins a thread that waits for it.
pub fn deadlock()
    ensures { EndsIn D5_2 join_of_a_locker (in_order (answers 0 0 ∷ goes 0 ∷ answers 0 0 ∷ [])) }
{}

/// Directive 5.3: a thread is created at a point that created one before.
pub fn dynamic_creation()
    ensures { EndsIn D5_3 creation_in_a_loop (in_order (goes 0 ∷ answers 0 0 ∷ goes 0 ∷ answers 0 0 ∷ [])) }
{}

/// Rule 21.25: a load with a weak memory order.
pub fn memory_order()
    ensures { EndsIn R21_25 relaxed_load (in_order (goes 0 ∷ [])) }
{}

/// Rule 21.26: a timed lock of a plain mutex, which answers `thrd_timedout`.
pub fn timed_lock()
    ensures { EndsIn R21_26 timed_lock_of_a_plain_mutex (in_order (answers 0 0 ∷ answers 0 4 ∷ [])) }
{}

/// Rule 22.11: a thread is detached twice.
pub fn detached_twice()
    ensures { EndsIn R22_11 two_detaches (in_order (answers 0 0 ∷ goes 0 ∷ goes 0 ∷ [])) }
{}

/// Rule 22.12: a mutex is copied.
pub fn copied_object()
    ensures { EndsIn R22_12 copied_mutex (in_order (goes 0 ∷ [])) }
{}

/// Rule 22.13: a mutex of automatic storage.
pub fn automatic_object()
    ensures { EndsIn R22_13 automatic_mutex (in_order (goes 0 ∷ [])) }
{}

/// Rule 22.14: a lock of a mutex that was never initialised.
pub fn used_before_initialisation()
    ensures { EndsIn R22_14 lock_before_init (in_order (goes 0 ∷ [])) }
{}

/// Rule 22.15: a lock of a mutex that was destroyed.
pub fn used_after_destruction()
    ensures { EndsIn R22_15 lock_after_destroy (in_order (answers 0 0 ∷ goes 0 ∷ goes 0 ∷ [])) }
{}

/// Rule 22.16: the initial thread ends as the owner of a mutex.
pub fn ended_as_owner()
    ensures { EndsIn R22_16 end_as_owner (in_order (answers 0 0 ∷ goes 0 ∷ goes 0 ∷ [])) }
{}

/// Rule 22.17: an unlock of a mutex that the thread does not own.
pub fn unlocked_without_lock()
    ensures { EndsIn R22_17 unlock_without_lock (in_order (answers 0 0 ∷ goes 0 ∷ [])) }
{}

/// Rule 22.18: a second lock of a mutex that is not recursive.
pub fn locked_twice()
    ensures { EndsIn R22_18 two_locks (in_order (answers 0 0 ∷ goes 0 ∷ goes 0 ∷ [])) }
{}

/// Rule 22.19: a condition variable is waited with two mutexes.
pub fn two_mutexes()
    ensures { EndsIn R22_19 two_mutexes_for_one_condition (in_order (answers 0 0 ∷ answers 0 0 ∷ answers 0 0 ∷ goes 0 ∷ goes 0 ∷ goes 0 ∷ goes 0 ∷ goes 0 ∷ [])) }
{}

/// Rule 22.20: a key is set that was never created.
pub fn key_used_before_creation()
    ensures { EndsIn R22_20 key_before_creation (in_order (goes 0 ∷ [])) }
{}
