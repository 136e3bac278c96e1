ghost use Rattle.std.specs.Prelude.{◌≡◌};
ghost use Rattle.misra_base.specs.Tables.{rows};
ghost use Rattle.c_visibility.specs.Library.{library_rows, is_library};

use misra_base::KeyTable;

/// The constants and the functions of the library, which a text never declares.
#[rattlefmt::skip]
#[tactic(auto, unfolding(crate::specs::Library::library_rows))]
pub(crate) fn library_table() -> KeyTable<74>
    ensures { rows result ≡ library_rows }
{
    KeyTable::new(
        "INT16_MAX INT16_MIN INT32_MAX INT32_MIN INT64_MAX INT64_MIN INT8_MAX INT8_MIN NULL TIME_UTC \
         UINT16_MAX UINT32_MAX UINT64_MAX UINT8_MAX atomic_compare_exchange_strong \
         atomic_compare_exchange_strong_explicit atomic_compare_exchange_weak \
         atomic_compare_exchange_weak_explicit atomic_exchange atomic_exchange_explicit \
         atomic_fetch_add atomic_fetch_add_explicit atomic_fetch_and atomic_fetch_and_explicit \
         atomic_fetch_or atomic_fetch_or_explicit atomic_fetch_sub atomic_fetch_sub_explicit \
         atomic_fetch_xor atomic_fetch_xor_explicit atomic_init atomic_load atomic_load_explicit \
         atomic_store atomic_store_explicit cnd_broadcast cnd_destroy cnd_init cnd_signal \
         cnd_timedwait cnd_wait false memory_order_acq_rel memory_order_acquire memory_order_consume \
         memory_order_relaxed memory_order_release memory_order_seq_cst mtx_destroy mtx_init mtx_lock \
         mtx_plain mtx_recursive mtx_timed mtx_timedlock mtx_trylock mtx_unlock thrd_busy thrd_create \
         thrd_detach thrd_error thrd_exit thrd_join thrd_nomem thrd_sleep thrd_success thrd_timedout \
         thrd_yield timespec_get true tss_create tss_delete tss_get tss_set",
        [0; 74],
    )
}

pub(crate) fn is_library(table: &KeyTable<74>, text: &[u8]) -> bool
    requires { rows table.now ≡ library_rows }
    ensures { result ≡ is_library text.now }
{
    table.find_bytes(text).is_some()
}
