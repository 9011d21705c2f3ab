//! Worked runs of the machine, computed from definitions as data to the lines that they show.
#![tactic(auto)]

ghost use Rattle.machine_rows.specs.PlayLaw.{PlayedIsRun};
ghost use Rattle.machine_rows.specs.Stuck.LastStep.{NoFurtherStep};
ghost use Rattle.machine_rows.specs.Runs.FirstRun as first_run_run;
ghost use Rattle.machine_rows.specs.Runs.NothingToDo as nothing_to_do_run;
ghost use Rattle.machine_rows.specs.Runs.Range as range_run;
ghost use Rattle.machine_rows.specs.Runs.LaxRange as lax_range_run;
ghost use Rattle.machine_rows.specs.Runs.ConstructOnly as construct_only_run;
ghost use Rattle.machine_rows.specs.Runs.ForwardReference as forward_reference_run;
ghost use Rattle.machine_rows.specs.Runs.Freezes as freezes_run;
ghost use Rattle.machine_rows.specs.Runs.Stages as stages_run;
ghost use Rattle.machine_rows.specs.Runs.TrueHandled as true_handled_run;
ghost use Rattle.machine_rows.specs.Runs.NoHandlers as no_handlers_run;
ghost use Rattle.machine_rows.specs.Runs.Connections as connections_run;
ghost use Rattle.machine_rows.specs.Runs.Pair as pair_run;
ghost use Rattle.machine_rows.specs.Runs.Labels as labels_run;
ghost use Rattle.machine_rows.specs.Runs.LastReference as last_reference_run;
ghost use Rattle.machine_rows.specs.Runs.MainLoop as main_loop_run;
ghost use Rattle.machine_rows.specs.Runs.Floating as floating_run;
ghost use Rattle.machine_rows.specs.Runs.FaultingPeer as faulting_peer_run;
ghost use Rattle.machine_rows.specs.Runs.Release as release_run;
ghost use Rattle.machine_rows.specs.Runs.TextAndTruth as text_and_truth_run;
ghost use Rattle.machine_rows.specs.Runs.Construction as construction_run;
ghost use Rattle.machine_rows.specs.Runs.ExplicitNotify as explicit_notify_run;
ghost use Rattle.machine_rows.specs.Runs.Links as links_run;
ghost use Rattle.machine_rows.specs.Runs.Children as children_run;
ghost use Rattle.machine_rows.specs.Runs.Detail as detail_run;
ghost use Rattle.machine_rows.specs.Runs.EnumBinding as enum_binding_run;
ghost use Rattle.machine_rows.specs.Runs.DueNotification as due_notification_run;
ghost use Rattle.machine_rows.specs.Runs.ScreenPeer as screen_peer_run;
ghost use Rattle.machine_rows.specs.Runs.RepeatedBlock as repeated_block_run;
ghost use Rattle.machine_rows.specs.Runs.FrozenPair as frozen_pair_run;
ghost use Rattle.machine_rows.specs.Runs.SourceLimit as source_limit_run;
ghost use Rattle.machine_rows.specs.Runs.Blocks as blocks_run;
ghost use Rattle.machine_rows.specs.Runs.NewIsOneStep as new_is_one_step_run;
ghost use Rattle.machine_rows.specs.Runs.EmitAtItsEnd as emit_at_its_end_run;
ghost use Rattle.machine_rows.specs.Runs.StopInNotify as stop_in_notify_run;
ghost use Rattle.machine_rows.specs.Runs.ThawAfterDispose as thaw_after_dispose_run;
ghost use Rattle.machine_rows.specs.Runs.DisposedInTheBuild as disposed_in_the_build_run;
ghost use Rattle.machine_rows.specs.Runs.AdoptedBefore as adopted_before_run;
ghost use Rattle.machine_rows.specs.Runs.NullUntilBuilt as null_until_built_run;
ghost use Rattle.machine_rows.specs.Runs.EachOthersChildren as each_others_children_run;
ghost use Rattle.machine_rows.specs.Runs.SourceData as source_data_run;
ghost use Rattle.machine_rows.specs.Runs.AttachedAnew as attached_anew_run;
ghost use Rattle.machine_rows.specs.Runs.NoRoom as no_room_run;
ghost use Rattle.machine_rows.specs.Runs.WeakAndDisposed as weak_and_disposed_run;
ghost use Rattle.machine_rows.specs.Runs.SwappedWithoutData as swapped_without_data_run;
ghost use Rattle.machine_rows.specs.Runs.CleanupValues as cleanup_values_run;
ghost use Rattle.machine_rows.specs.Runs.StopOutside as stop_outside_run;
ghost use Rattle.machine_rows.specs.Runs.LeftOfAThaw as left_of_a_thaw_run;
ghost use Rattle.machine_rows.specs.Runs.NotifyOfAnInterface as notify_of_an_interface_run;
ghost use Rattle.machine_rows.specs.Runs.Spellings as spellings_run;
ghost use Rattle.machine_rows.specs.Runs.ForwardConstruct as forward_construct_run;
ghost use Rattle.machine_rows.specs.Runs.RefusedGiven as refused_given_run;
ghost use Rattle.machine_rows.specs.Runs.UnknownBits as unknown_bits_run;
ghost use Rattle.machine_rows.specs.Runs.DisposedAndFinal as disposed_and_final_run;
ghost use Rattle.machine_rows.specs.Runs.LimitOfHandlers as limit_of_handlers_run;
ghost use Rattle.machine_rows.specs.Runs.LateConnection as late_connection_run;
ghost use Rattle.machine_rows.specs.Runs.StillToBuild as still_to_build_run;
ghost use Rattle.machine_rows.specs.Runs.PairAndBinding as pair_and_binding_run;
ghost use Rattle.machine_rows.specs.Runs.FrozenEnds as frozen_ends_run;
ghost use Rattle.machine_rows.specs.Runs.TurnWithoutSources as turn_without_sources_run;
ghost use Rattle.machine_rows.specs.Runs.TurnAfterAValue as turn_after_a_value_run;
ghost use Rattle.machine_rows.specs.Stuck.UnsetRegister as unset_register_run;
ghost use Rattle.machine_rows.specs.Stuck.ValueOfAnotherKind as value_of_another_kind_run;
ghost use Rattle.machine_rows.specs.Stuck.LateConstructOnly as late_construct_only_run;
ghost use Rattle.machine_rows.specs.Stuck.UnreadableProperty as unreadable_property_run;
ghost use Rattle.machine_rows.specs.Stuck.NullOperand as null_operand_run;
ghost use Rattle.machine_rows.specs.Stuck.UnfitArgument as unfit_argument_run;
ghost use Rattle.machine_rows.specs.Stuck.UnfitParameters as unfit_parameters_run;
ghost use Rattle.machine_rows.specs.Stuck.ThawWithoutFreeze as thaw_without_freeze_run;
ghost use Rattle.machine_rows.specs.Stuck.CallWithoutPeer as call_without_peer_run;
ghost use Rattle.machine_rows.specs.Stuck.UnknownProperty as unknown_property_run;
ghost use Rattle.machine_rows.specs.Stuck.UnfitResult as unfit_result_run;
ghost use Rattle.machine_rows.specs.Stuck.AbstractObject as abstract_object_run;
ghost use Rattle.machine_rows.specs.Stuck.LateForward as late_forward_run;
ghost use Rattle.machine_rows.specs.Stuck.UnwritableForward as unwritable_forward_run;
ghost use Rattle.machine_rows.specs.Stuck.LateSetByEvent as late_set_by_event_run;
ghost use Rattle.machine_rows.specs.Stuck.UnwritableSetByEvent as unwritable_set_by_event_run;
ghost use Rattle.machine_rows.specs.Stuck.UnwritableGiven as unwritable_given_run;
ghost use Rattle.machine_rows.specs.Stuck.UnwritableConstruct as unwritable_construct_run;
ghost use Rattle.machine_rows.specs.Stuck.InvalidDefault as invalid_default_run;
ghost use Rattle.machine_rows.specs.Stuck.NewOfAnObject as new_of_an_object_run;
ghost use Rattle.machine_rows.specs.Stuck.ObjectOfAPrototype as object_of_a_prototype_run;
ghost use Rattle.machine_rows.specs.Stuck.UnknownBinding as unknown_binding_run;
ghost use Rattle.machine_rows.specs.Stuck.UnknownDetail as unknown_detail_run;
ghost use Rattle.machine_rows.specs.Stuck.UndetailedConnect as undetailed_connect_run;
ghost use Rattle.machine_rows.specs.Stuck.UndetailedEmit as undetailed_emit_run;
ghost use Rattle.machine_rows.specs.Stuck.UndetailedEvent as undetailed_event_run;
ghost use Rattle.machine_rows.specs.Stuck.UndetailedSignal as undetailed_signal_run;
ghost use Rattle.machine_rows.specs.Stuck.UnknownNotification as unknown_notification_run;
ghost use Rattle.machine_rows.specs.Stuck.PeerWithoutShape as peer_without_shape_run;

/// Each worked run shows its lines.
pub fn rows()
    ensures first_run { first_run_run.Holds }
    ensures nothing_to_do { nothing_to_do_run.Holds }
    ensures range { range_run.Holds }
    ensures lax_range { lax_range_run.Holds }
    ensures construct_only { construct_only_run.Holds }
    ensures forward_reference { forward_reference_run.Holds }
    ensures freezes { freezes_run.Holds }
    ensures stages { stages_run.Holds }
    ensures true_handled { true_handled_run.Holds }
    ensures no_handlers { no_handlers_run.Holds }
    ensures connections { connections_run.Holds }
    ensures pair { pair_run.Holds }
    ensures labels { labels_run.Holds }
    ensures last_reference { last_reference_run.Holds }
    ensures main_loop { main_loop_run.Holds }
    ensures floating { floating_run.Holds }
    ensures faulting_peer { faulting_peer_run.Holds }
    ensures release { release_run.Holds }
    ensures text_and_truth { text_and_truth_run.Holds }
    ensures construction { construction_run.Holds }
    ensures explicit_notify { explicit_notify_run.Holds }
    ensures links { links_run.Holds }
    ensures children { children_run.Holds }
    ensures detail { detail_run.Holds }
    ensures enum_binding { enum_binding_run.Holds }
    ensures due_notification { due_notification_run.Holds }
    ensures screen_peer { screen_peer_run.Holds }
    ensures repeated_block { repeated_block_run.Holds }
    ensures frozen_pair { frozen_pair_run.Holds }
{}

/// Runs that meet what the rules leave to a choice.
pub fn corners()
    ensures source_limit { source_limit_run.Holds }
    ensures blocks { blocks_run.Holds }
    ensures new_is_one_step { new_is_one_step_run.Holds }
    ensures emit_at_its_end { emit_at_its_end_run.Holds }
    ensures stop_in_notify { stop_in_notify_run.Holds }
    ensures thaw_after_dispose { thaw_after_dispose_run.Holds }
    ensures disposed_in_the_build { disposed_in_the_build_run.Holds }
    ensures adopted_before { adopted_before_run.Holds }
    ensures null_until_built { null_until_built_run.Holds }
    ensures each_others_children { each_others_children_run.Holds }
    ensures source_data { source_data_run.Holds }
    ensures attached_anew { attached_anew_run.Holds }
    ensures no_room { no_room_run.Holds }
    ensures weak_and_disposed { weak_and_disposed_run.Holds }
    ensures swapped_without_data { swapped_without_data_run.Holds }
    ensures cleanup_values { cleanup_values_run.Holds }
    ensures stop_outside { stop_outside_run.Holds }
    ensures left_of_a_thaw { left_of_a_thaw_run.Holds }
    ensures notify_of_an_interface { notify_of_an_interface_run.Holds }
    ensures spellings { spellings_run.Holds }
    ensures forward_construct { forward_construct_run.Holds }
    ensures refused_given { refused_given_run.Holds }
    ensures unknown_bits { unknown_bits_run.Holds }
    ensures disposed_and_final { disposed_and_final_run.Holds }
    ensures limit_of_handlers { limit_of_handlers_run.Holds }
    ensures late_connection { late_connection_run.Holds }
    ensures still_to_build { still_to_build_run.Holds }
    ensures pair_and_binding { pair_and_binding_run.Holds }
    ensures frozen_ends { frozen_ends_run.Holds }
    ensures turn_without_sources { turn_without_sources_run.Holds }
    ensures turn_after_a_value { turn_after_a_value_run.Holds }
{}

/// Each arm by which the machine may be stuck is reached by a definition that a check would refuse.
pub fn arms()
    ensures unset_register { unset_register_run.Holds }
    ensures value_of_another_kind { value_of_another_kind_run.Holds }
    ensures late_construct_only { late_construct_only_run.Holds }
    ensures unreadable_property { unreadable_property_run.Holds }
    ensures null_operand { null_operand_run.Holds }
    ensures unfit_argument { unfit_argument_run.Holds }
    ensures unfit_parameters { unfit_parameters_run.Holds }
    ensures thaw_without_freeze { thaw_without_freeze_run.Holds }
    ensures call_without_peer { call_without_peer_run.Holds }
    ensures unknown_property { unknown_property_run.Holds }
    ensures unfit_result { unfit_result_run.Holds }
    ensures abstract_object { abstract_object_run.Holds }
    ensures late_forward { late_forward_run.Holds }
    ensures unwritable_forward { unwritable_forward_run.Holds }
    ensures late_set_by_event { late_set_by_event_run.Holds }
    ensures unwritable_set_by_event { unwritable_set_by_event_run.Holds }
    ensures unwritable_given { unwritable_given_run.Holds }
    ensures unwritable_construct { unwritable_construct_run.Holds }
    ensures invalid_default { invalid_default_run.Holds }
    ensures new_of_an_object { new_of_an_object_run.Holds }
    ensures object_of_a_prototype { object_of_a_prototype_run.Holds }
    ensures unknown_binding { unknown_binding_run.Holds }
    ensures unknown_detail { unknown_detail_run.Holds }
    ensures undetailed_connect { undetailed_connect_run.Holds }
    ensures undetailed_emit { undetailed_emit_run.Holds }
    ensures undetailed_event { undetailed_event_run.Holds }
    ensures undetailed_signal { undetailed_signal_run.Holds }
    ensures unknown_notification { unknown_notification_run.Holds }
    ensures peer_without_shape { peer_without_shape_run.Holds }
{}

/// No counted step is taken past the most of a dispatch.
pub fn no_further_step()
    ensures { NoFurtherStep }
{}

/// What is played with replies is a run of the machine in which peers give them.
pub fn played_is_run()
    ensures { PlayedIsRun }
{}
